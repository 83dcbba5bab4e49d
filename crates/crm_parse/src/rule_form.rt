use crate::RoleWord;
use crm_lex::Name;
use date_rules::Rule;
use listed::Listed;
use score::Score;

/// A rule of a location, `rule [$id=ID] [$role=ROLE] SCORE: TEST` (crmsh manual, rule expressions).
#[derive(PartialEq, Eq, Drop)]
pub struct RuleForm {
    /// The id that the rule wrote, where it wrote one.
    pub id: Option<Name>,
    /// The role that the rule wrote, where it wrote one. It overrides that of the statement.
    pub role: Option<RoleWord>,
    pub score: Score,
    /// The words of the expression, with `in_range` as `in`.
    pub words: Listed<Name>,
    /// What the expression means. For a single test `all` is true.
    pub rule: Rule,
}
