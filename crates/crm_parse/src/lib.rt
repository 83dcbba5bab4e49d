//! The statements of a configuration, read from the words of its lines.
#![tactic(auto)]

// What a configuration says.
mod form;
mod pair;
mod rule_form;
mod statement;
mod words;

// Why a text isn't read.
mod fault;

// The sections of a text.
mod marks;

// What a value stands for.
mod values;

// How words are read.
mod accept;
mod keyed_pairs;
mod keys;
mod operations;
mod owner;
mod pairs;
mod place;
mod reading;
mod section;

// The statements, form by form.
mod colocation;
mod draft;
mod drafts;
mod expression;
mod group;
mod keyword;
mod line;
mod location;
mod node;
mod order;
mod primitive;
mod rule;
mod setting_keys;
mod settings;

// The whole text.
mod actions;
mod parser;
mod promotable;

// What the readers say, by a grammar.
mod laws;

pub use fault::{ParseCause, ParseFault, parse_name};
pub use form::{Form, OrderStep, Side};
pub use laws::{
    a_fault_stays_whatever_stands_behind, a_line_that_ends_too_early_lacks_a_word,
    a_missing_word_is_missing_at_the_end_or_in_a_section, a_refused_line_has_a_first_faulty_word,
    clones_are_read_as_they_say, colocations_are_read_as_they_say,
    configurations_of_texts_are_unique, groups_are_read_as_they_say, lines_are_read_as_they_say,
    lines_that_say_nothing_are_refused, locations_are_read_as_they_say, nodes_are_read_as_they_say,
    orders_are_read_as_they_say, primitives_are_read_as_they_say, settings_are_read_as_they_say,
    statements_of_lines_are_unique,
};
pub use marks::{AuditMarks, SectionMarks, audit_sections, sections};
pub use operations::{interval_of, recurs, value_of};
pub use pair::{Kv, Operation};
pub use parser::parse;
pub use reading::is_name;
pub use rule_form::RuleForm;
pub use statement::{Crm, Statement};
pub use values::{RoleName, action_of, bool_of, count_of, kind_of, role_of, time_of};
pub use words::{ActionWord, KindWord, RoleWord, SettingsWord};
