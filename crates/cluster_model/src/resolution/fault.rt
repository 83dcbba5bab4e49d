ghost use Rattle.std.specs.Prelude.{◌≡◌};
ghost use Rattle.cluster_model.specs.Causes.{model_name};

use faults::Fault;
use thiserror::Error;

/// Why a configuration says no cluster.
#[derive(Clone, Copy, Debug, PartialEq, Eq, Error)]
pub enum ModelCause {
    /// A rule names a resource or a node that isn't there.
    #[error("There is no node, resource, member or child of that name.")]
    UnknownName,
    /// A rule promotes a resource that isn't promotable.
    #[error("A rule gives the role Promoted, promote or demote to a resource that isn't promotable.")]
    NotPromotable,
    /// An order has a stop or a demote wait for a start or a promote.
    #[error("An order has a stop or a demote wait for a start or a promote.")]
    UnsupportedOrder,
    /// There are more than 256 nodes.
    #[error("This is the 257th node.")]
    TooManyNodes,
    /// There are more than 1,000 primitives.
    #[error("This is the 1,001st primitive.")]
    TooManyLeaves,
    /// There are more than 2,000 rules.
    #[error("With this statement there are more than 2,000 rules. A group of n members has 2n - 2 of them, an order \
        of n resources n - 1, a location one for each of its rules.")]
    TooManyRules,
    /// Resources need each other's place in a circle.
    #[error("With this colocation or group the colocations have a loop, whatever their scores.")]
    ColocationLoop,
    /// Steps wait for each other in a circle.
    #[error("With this order or group the orders have a loop; Optional ones count, Serialize ones don't.")]
    OrderLoop,
}

/// The name of a cause, as it is printed: that of its variant.
pub fn model_name(cause: ModelCause) -> &'static str
    ensures { result.now ≡ model_name cause }
{
    match cause {
        ModelCause::UnknownName => "UnknownName",
        ModelCause::NotPromotable => "NotPromotable",
        ModelCause::UnsupportedOrder => "UnsupportedOrder",
        ModelCause::TooManyNodes => "TooManyNodes",
        ModelCause::TooManyLeaves => "TooManyLeaves",
        ModelCause::TooManyRules => "TooManyRules",
        ModelCause::ColocationLoop => "ColocationLoop",
        ModelCause::OrderLoop => "OrderLoop",
    }
}

/// Why there is no cluster: out of memory, or a line and a cause. The line is that of the first statement that is at fault, and the cause the
/// first of its causes in their order.
pub type ModelFault = Fault<ModelCause>;
