//! Sides of a comparison, and what is told of them.
ghost use Rattle.std.specs.Prelude.{◌≡◌};
ghost use Rattle.yaml_canon.specs.Comparing.{side_of_fault};

use yaml_text::Side;
use yaml_text::fault::Fault;

/// The side of a fault of both sides' nodes, of which so many are the left side's. A mapping with
/// equal keys has its number among its own side's nodes.
pub fn with_side(nodes: usize, fault: Fault) -> (Side, Fault)
    ensures { result ≡ side_of_fault nodes fault }
{
    if let Fault::EqualKeys(node, first, second) = fault {
        if node >= nodes {
            return (Side::Right, Fault::EqualKeys(node - nodes, first, second));
        }
    }
    (Side::Left, fault)
}
