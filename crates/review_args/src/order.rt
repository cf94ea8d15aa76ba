//! Words in the order in which kubectl passes them.
ghost use Rattle.std.specs.Prelude.{◌≡◌, ◌∷◌, ◌++◌, [], codes, IfOk, OnOk, map, string_bytes};
ghost use Rattle.review_args.specs.Order.{are_kubectls, in_order, is_absolute};

use std::alloc::{AllocError, Global};

/// The command that kubectl calls.
const NAME: &str = "diff";

/// The option for all files of two folders: kubectl names them after objects, without `.yaml`.
const ALL_FILES: &str = "--include=*";

/// Whether a text is an absolute path.
fn is_absolute(text: &str) -> bool
    ensures { result ≡ is_absolute text.now }
{
    match text.as_bytes().first() {
        Some(byte) => *byte == b'/',
        None => false,
    }
}

/// Whether kubectl passes these words: the paths of two folders, and behind them the command and its options.
fn are_kubectls(words: &[String]) -> bool
    ensures { result ≡ are_kubectls (map string_bytes words.now) }
{
    let Some((left, behind)) = words.split_first() else {
        return false;
    };
    let Some((right, behind)) = behind.split_first() else {
        return false;
    };
    let Some((name, _)) = behind.split_first() else {
        return false;
    };
    is_absolute(left.as_str()) && is_absolute(right.as_str()) && name.as_str() == NAME
}

/// Copies words behind others.
fn add(list: &mut Vec<String>, words: &[String]) -> Result<(), AllocError>
    ensures { OnOk result (map string_bytes list.new.items ≡ map string_bytes list.old.items ++ map string_bytes words.now) }
{
    for word in words {
        list.push(word.clone()?)?;
    }
    Ok(())
}

/// Adds the option for all files.
#[tactic(auto, using(crate::proofs::Loops::map_added))]
fn add_option(alloc: Global, list: &mut Vec<String>) -> Result<(), AllocError>
    ensures { OnOk result (map string_bytes list.new.items ≡ map string_bytes list.old.items ++ (codes "--include=*" ∷ [])) }
{
    let option = ALL_FILES.to_string(alloc)?;
    list.push(option)?;
    Ok(())
}

/// The words in the order of all commands: the command, its options, and what it is for. Of kubectl's folders all files are compared.
/// `kubectl diff` splits the value of KUBECTL_EXTERNAL_DIFF at its spaces and passes all but the first of these words behind the paths
/// of two folders.
pub fn in_order(alloc: Global, words: &[String]) -> Result<Vec<String>, AllocError>
    ensures { IfOk result (λ list. map string_bytes list.items ≡ in_order (map string_bytes words.now)) }
{
    let mut list = Vec::new(alloc);
    match words.split_at_checked(2) {
        Some((folders, rest)) if are_kubectls(words) => {
            add(&mut list, rest)?;
            add_option(alloc, &mut list)?;
            add(&mut list, folders)?;
        }
        _ => add(&mut list, words)?,
    }
    Ok(list)
}
