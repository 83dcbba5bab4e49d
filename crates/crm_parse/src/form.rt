use crate::{ActionWord, KindWord, Kv, Operation, RoleWord, RuleForm, SettingsWord};
use crm_lex::Name;
use listed::Listed;
use score::Score;

/// One side of a colocation: a resource, and the role in which it is meant. A role that is left out is Started.
#[derive(PartialEq, Eq, Drop)]
pub struct Side {
    pub resource: Name,
    pub role: RoleWord,
}

/// One resource of an order, and its action. An action that is left out is that of the resource before it, and start for the first one;
/// where such an action is promote or demote and the resource has no promoted role, it is start or stop (rule of this project).
#[derive(PartialEq, Eq, Drop)]
pub struct OrderStep {
    pub resource: Name,
    pub action: ActionWord,
}

/// What a statement says, by its form. Several sections of one kind are joined, and a section that isn't there is an empty list.
#[derive(PartialEq, Eq, Drop)]
pub enum Form {
    /// `node [ID:] NAME [attributes KEY=VALUE..] [utilization KEY=VALUE..]` (crmsh manual, `node`).
    Node {
        /// The id, where one was written.
        id: Option<Name>,
        name: Name,
        attributes: Listed<Kv>,
        utilization: Listed<Kv>,
    },
    /// `primitive ID AGENT [description=TEXT]`, and then sections `params`, `meta`, `utilization`, `operations` and `op` (crmsh manual,
    /// `primitive`).
    Primitive {
        id: Name,
        /// The agent with all its parts, as `ocf:heartbeat:Dummy`.
        agent: Name,
        description: Option<Name>,
        params: Listed<Kv>,
        meta: Listed<Kv>,
        utilization: Listed<Kv>,
        operations: Listed<Kv>,
        ops: Listed<Operation>,
    },
    /// `group ID MEMBER.. [description=TEXT]`, and then sections `params` and `meta` (crmsh manual, `group`). It may have no member.
    Group {
        id: Name,
        members: Listed<Name>,
        description: Option<Name>,
        params: Listed<Kv>,
        meta: Listed<Kv>,
    },
    /// `clone ID CHILD [description=TEXT]`, and then sections `params` and `meta` (crmsh manual, `clone` and `ms`).
    Cloned {
        id: Name,
        child: Name,
        /// Whether it was written as `ms` or `master`, and so is promotable.
        ms: bool,
        description: Option<Name>,
        params: Listed<Kv>,
        meta: Listed<Kv>,
    },
    /// `location ID RESOURCE [role=ROLE] [resource-discovery=always] SCORE: NODE` (crmsh manual, `location`).
    Location {
        id: Name,
        resource: Name,
        role: Option<RoleWord>,
        /// Whether `resource-discovery=always` was written.
        discovery: bool,
        score: Score,
        node: Name,
    },
    /// `location ID RESOURCE [role=ROLE] [resource-discovery=always] RULE..` (crmsh manual, `location` and its rules).
    RuledLocation {
        id: Name,
        resource: Name,
        role: Option<RoleWord>,
        /// Whether `resource-discovery=always` was written.
        discovery: bool,
        rules: Listed<RuleForm>,
    },
    /// `colocation ID SCORE: RESOURCE[:ROLE] RESOURCE[:ROLE]` (crmsh manual, `colocation`).
    Colocation {
        id: Name,
        score: Score,
        dependent: Side,
        primary: Side,
    },
    /// `order ID [KIND: or SCORE:] RESOURCE[:ACTION] RESOURCE[:ACTION].. [symmetrical=BOOL]` (crmsh manual, `order`).
    Order {
        id: Name,
        kind: KindWord,
        steps: Listed<OrderStep>,
        symmetrical: bool,
    },
    /// `property [SET-ID:] KEY=VALUE..`, and `rsc_defaults` and `op_defaults` alike (crmsh manual, `property`, `rsc_defaults` and `op_defaults`).
    Settings {
        what: SettingsWord,
        /// The id of the set, where one was written.
        set: Option<Name>,
        pairs: Listed<Kv>,
    },
    /// A statement that is kept and has no effect: all words of its line.
    Kept {
        words: Listed<Name>,
    },
}
