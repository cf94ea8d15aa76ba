//! Graphs as text.
use std::alloc::{AllocError, Global};
use std::fmt::Write;
use yaml_graph::{Graph, Node, NodeId, NodeKind};

/// The tag without the prefix of the core schema, and the content or the numbers of the parts.
fn show_node(text: &mut String, node: &Node<'_>) -> Result<(), AllocError> {
    let tag = node.tag.as_str();
    text.push_str(tag.strip_prefix("tag:yaml.org,2002:").unwrap_or(tag))?;
    match &node.kind {
        NodeKind::Scalar(content) => write!(text, "={}", content.as_str()),
        NodeKind::Sequence(items) => {
            for item in items {
                write!(text, ",{}", item.0)?;
            }
            Ok(())
        }
        NodeKind::Mapping(entries) => {
            for (key, value) in entries {
                write!(text, ",{}:{}", key.0, value.0)?;
            }
            Ok(())
        }
    }
}

/// Each node and its height, in order, and the roots.
pub fn shown(alloc: Global, graph: &Graph<'_>) -> Result<String, AllocError> {
    let mut text = String::new(alloc);
    for number in 0..graph.len() {
        show_node(&mut text, graph.node(NodeId(number)))?;
        write!(text, "^{} ", graph.height(NodeId(number)))?;
    }
    text.push_str("/")?;
    for root in graph.roots() {
        write!(text, " {}", root.0)?;
    }
    Ok(text)
}
