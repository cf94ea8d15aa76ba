//! Logs of SARIF 2.1.0.
ghost use Rattle.std.specs.Prelude.{◌≡◌, ◌++◌, map, string_bytes, IfOk, OnOk, bytes_eq};
ghost use Rattle.std.specs.List.{flat_map, list_any};
ghost use Rattle.serde_json.specs.Data.{array};
ghost use Rattle.serde_json.specs.View.{view, items_of};
ghost use Rattle.review_formats.specs.Sarif.{uri_text, region_data, artifact_data, physical_data, location_data, level_word, path_front, message_data, result_data, part_results, with_rule, with_findings, rule_data, rules_data, tool_data, invocations_data, run_data, log_data, sarif_text};

use crate::finding::{Finding, Findings, Level, Part};
use crate::left_out::LeftOut;
use percent_encoding::{AsciiSet, NON_ALPHANUMERIC, ascii_set, utf8_percent_encode};
use serde_json::{Map, Value, json, put};
use std::alloc::{AllocError, Global};
use yaml_path::Place;

const SCHEMA: &str = "https://json.schemastore.org/sarif-2.1.0.json";

/// The version of the program.
const VERSION: &str = "1.1.0";

/// What of a file's name is escaped in a URI.
const ESCAPED: AsciiSet = ascii_set!(
    NON_ALPHANUMERIC
        .remove(b'/')
        .remove(b'-')
        .remove(b'.')
        .remove(b'_')
        .remove(b'~')
);

/// The word of a level.
fn level_word(level: Level) -> &'static str
    ensures { result.now ≡ level_word level }
{
    match level {
        Level::Error => "error",
        Level::Warning => "warning",
        Level::Note => "note",
    }
}

/// The URI of a file, relative to where the program runs.
fn uri_of(alloc: Global, name: &str) -> Result<String, AllocError>
    ensures ok { IfOk result (λ uri. string_bytes uri ≡ uri_text name.now) }
{
    let mut uri = String::new(alloc);
    utf8_percent_encode(name, ESCAPED).append_to(&mut uri)?;
    Ok(uri)
}

/// Where a line and a column are.
fn region(alloc: Global, place: Place) -> Result<Value, AllocError>
    ensures ok { IfOk result (λ value. view value ≡ region_data place) }
{
    let line = place.line as u64;
    let column = place.column as u64;
    Ok(json!(in alloc; {"startLine": line, "startColumn": column})?)
}

/// The file.
fn artifact(alloc: Global, file: &str) -> Result<Value, AllocError>
    ensures ok { IfOk result (λ value. view value ≡ artifact_data file.now) }
{
    let uri = uri_of(alloc, file)?;
    Ok(json!(in alloc; {"uri": (uri.as_str())})?)
}

/// The file, with the line and the column if there are.
fn physical(alloc: Global, file: &str, place: Option<Place>) -> Result<Value, AllocError>
    ensures ok { IfOk result (λ value. view value ≡ physical_data file.now place) }
{
    let mut physical = Map::new(alloc);
    put(
        &mut physical,
        alloc,
        "artifactLocation",
        artifact(alloc, file)?,
    )?;
    match place {
        Some(place) => {
            put(&mut physical, alloc, "region", region(alloc, place)?)?;
            Ok(Value::Object(physical))
        }
        None => Ok(Value::Object(physical)),
    }
}

/// Where something is found: the file, the line and the column if there are, and the path of the node.
fn location(
    alloc: Global,
    file: &str,
    place: Option<Place>,
    path: &Option<String>,
) -> Result<Value, AllocError>
    ensures ok { IfOk result (λ value. view value ≡ location_data file.now place path.now) }
{
    let mut location = Map::new(alloc);
    let physical = physical(alloc, file, place)?;
    put(&mut location, alloc, "physicalLocation", physical)?;
    match path {
        Some(path) => {
            let logical = json!(in alloc; [{"fullyQualifiedName": (path.as_str())}])?;
            put(&mut location, alloc, "logicalLocations", logical)?;
            Ok(Value::Object(location))
        }
        None => Ok(Value::Object(location)),
    }
}

/// Writes the path, if there is one, before what is said.
fn put_path(out: &mut String, path: &Option<String>) -> Result<(), AllocError>
    ensures ok { OnOk result (string_bytes out.new ≡ string_bytes out.old ++ path_front path.now) }
{
    if let Some(path) = path {
        out.push_str(path)?;
        out.push_str(": ")?;
    }
    Ok(())
}

/// The text of a message: the path and what is said of it.
fn message(alloc: Global, finding: &Finding) -> Result<Value, AllocError>
    ensures ok { IfOk result (λ value. view value ≡ message_data finding.now) }
{
    let mut text = String::new(alloc);
    put_path(&mut text, &finding.path)?;
    text.push_str(&finding.message)?;
    Ok(json!(in alloc; {"text": (text.as_str())})?)
}

/// One result.
fn result_of(alloc: Global, finding: &Finding) -> Result<Value, AllocError>
    ensures ok { IfOk result (λ value. view value ≡ result_data finding.now) }
{
    let mut result = Map::new(alloc);
    let rule = Value::try_from_str(alloc, finding.rule)?;
    let level = Value::try_from_str(alloc, level_word(finding.level))?;
    put(&mut result, alloc, "ruleId", rule)?;
    put(&mut result, alloc, "level", level)?;
    put(&mut result, alloc, "message", message(alloc, finding)?)?;
    let mut locations = Vec::new(alloc);
    locations.push(location(alloc, &finding.file, finding.place, &finding.path)?)?;
    put(&mut result, alloc, "locations", Value::Array(locations))?;
    Ok(Value::Object(result))
}

/// Adds the results of a part.
fn add_results(alloc: Global, results: &mut Vec<Value>, part: &Part) -> Result<(), AllocError>
    ensures ok { OnOk result (map view results.new.items ≡ map view results.old.items ++ part_results part.now) }
{
    'findings: for finding in &part.list {
        results.push(result_of(alloc, finding)?)?;
    }
    Ok(())
}

/// The results of all parts.
fn results_of(alloc: Global, parts: &[Part]) -> Result<Value, AllocError>
    ensures ok { IfOk result (λ value. view value ≡ array (items_of (flat_map part_results parts.now))) }
{
    let mut results = Vec::new(alloc);
    'parts: for part in parts {
        add_results(alloc, &mut results, part)?;
    }
    Ok(Value::Array(results))
}

/// Whether a rule is one of these.
fn is_among(rules: &[&'static str], rule: &str) -> bool
    ensures { result ≡ list_any (λ one. bytes_eq one.now rule.now) rules.now }
{
    rules.iter().any(|one| *one == rule)
}

/// Adds a rule, if it is not there yet.
#[tactic(auto, using(crate::proofs::SarifLaws::rule_there, crate::proofs::SarifLaws::rule_new))]
fn add_rule(rules: &mut Vec<&'static str>, rule: &'static str) -> Result<(), AllocError>
    ensures ok { OnOk result (map (λ one. one.now) rules.new.items ≡ with_rule (map (λ one. one.now) rules.old.items) rule.now) }
{
    if is_among(rules.as_slice(), rule) {
        return Ok(());
    }
    rules.push(rule)?;
    Ok(())
}

/// Adds the rules of a part that are not there yet.
fn add_rules(rules: &mut Vec<&'static str>, part: &Part) -> Result<(), AllocError>
    ensures ok { OnOk result (map (λ one. one.now) rules.new.items ≡ with_findings (map (λ one. one.now) rules.old.items) part.now.list.items) }
{
    'findings: for finding in &part.list {
        add_rule(rules, finding.rule)?;
    }
    Ok(())
}

/// Rules as JSON.
fn rule_values(alloc: Global, rules: &[&'static str]) -> Result<Vec<Value>, AllocError>
    ensures ok { IfOk result (λ values. map view values.items ≡ map rule_data (map (λ one. one.now) rules.now)) }
{
    let mut values = Vec::new(alloc);
    'rules: for rule in rules {
        let id = *rule;
        values.push(json!(in alloc; {"id": id})?)?;
    }
    Ok(values)
}

/// The rules of the results, each once, in the order in which they come first.
fn rules_of(alloc: Global, parts: &[Part]) -> Result<Vec<Value>, AllocError>
    ensures ok { IfOk result (λ values. map view values.items ≡ rules_data parts.now) }
{
    let mut rules = Vec::new(alloc);
    'parts: for part in parts {
        add_rules(&mut rules, part)?;
    }
    rule_values(alloc, &rules)
}

/// The program, with the rules of the results.
fn tool_of(alloc: Global, parts: &[Part]) -> Result<Value, AllocError>
    ensures ok { IfOk result (λ value. view value ≡ tool_data parts.now) }
{
    let mut driver = Map::new(alloc);
    let name = Value::try_from_str(alloc, "yamlreview")?;
    let version = Value::try_from_str(alloc, VERSION)?;
    let rules = Value::Array(rules_of(alloc, parts)?);
    put(&mut driver, alloc, "name", name)?;
    put(&mut driver, alloc, "version", version)?;
    put(&mut driver, alloc, "rules", rules)?;
    let mut tool = Map::new(alloc);
    put(&mut tool, alloc, "driver", Value::Object(driver))?;
    Ok(Value::Object(tool))
}

/// What the program says of the run: what is not listed.
fn invocations_of(alloc: Global, left_out: LeftOut) -> Result<Value, AllocError>
    ensures ok { IfOk result (λ value. view value ≡ invocations_data left_out) }
{
    let mut text = String::new(alloc);
    text.push_str("Not listed: ")?;
    left_out.put(&mut text)?;
    Ok(
        json!(in alloc; [{"executionSuccessful": true, "toolExecutionNotifications": [{"level": "note", "message": {"text": (text.as_str())}}]}])?,
    )
}

/// The run with the results of all parts, and what is not listed, if there is something.
fn run_of(alloc: Global, found: &Findings) -> Result<Value, AllocError>
    ensures ok { IfOk result (λ value. view value ≡ run_data found.now.parts.items) }
{
    let mut run = Map::new(alloc);
    let kind = Value::try_from_str(alloc, "unicodeCodePoints")?;
    put(&mut run, alloc, "tool", tool_of(alloc, &found.parts)?)?;
    put(&mut run, alloc, "columnKind", kind)?;
    put(&mut run, alloc, "results", results_of(alloc, &found.parts)?)?;
    let left_out = found.left_out();
    if left_out.is_none() {
        return Ok(Value::Object(run));
    }
    let invocations = invocations_of(alloc, left_out)?;
    put(&mut run, alloc, "invocations", invocations)?;
    Ok(Value::Object(run))
}

/// The log with one run.
fn log_of(alloc: Global, found: &Findings) -> Result<Value, AllocError>
    ensures ok { IfOk result (λ value. view value ≡ log_data found.now.parts.items) }
{
    let mut log = Map::new(alloc);
    let mut runs = Vec::new(alloc);
    runs.push(run_of(alloc, found)?)?;
    let schema = Value::try_from_str(alloc, SCHEMA)?;
    let version = Value::try_from_str(alloc, "2.1.0")?;
    put(&mut log, alloc, "$schema", schema)?;
    put(&mut log, alloc, "version", version)?;
    put(&mut log, alloc, "runs", Value::Array(runs))?;
    Ok(Value::Object(log))
}

/// What is found as a log of SARIF 2.1.0. Its columns count characters.
///
/// # Errors
/// 21: memory is refused.
#[tactic(auto, using(crate::proofs::SarifLaws::log_no_float))]
pub fn sarif_text(alloc: Global, found: &Findings) -> Result<String, AllocError>
    ensures ok { IfOk result (λ text. string_bytes text ≡ sarif_text found.now) }
{
    let mut text = log_of(alloc, found)?.to_string(alloc)?;
    text.push('\n')?;
    Ok(text)
}
