//! A line is read as a statement just when its words say that statement.

ghost use Rattle.std.specs.Prelude.{◌≡◌, ◌≢◌, ◌↔◌, ◌⊎◌, ℕ, Bool, List, [], Ok, Err};
ghost use Rattle.std.specs.List.{AllByRecursion};
ghost use Rattle.crm_parse.specs.declared.draft.OrderDraft.{OrderDraft as OrderOf};
ghost use Rattle.crm_parse.specs.declared.draft.Draft.{Draft as StatementOf};
ghost use Rattle.crm_parse.specs.declared.draft.DraftStatement.{DraftStatement as DraftOf};
ghost use Rattle.crm_parse.specs.declared.fault.ParseCause.{ParseCause as CauseOf};
ghost use Rattle.crm_parse.specs.declared.fault.ParseCause.TheVariants.{MissingWord};
ghost use Rattle.crm_parse.specs.declared.form.Form.{Form as FormOf};
ghost use Rattle.crm_parse.specs.declared.words.SettingsWord.{SettingsWord as SettingsOf};
ghost use Rattle.crm_lex.specs.declared.line.Line.{Line as LineOf};
ghost use Rattle.crm_parse.specs.Colocation.{colocation_at};
ghost use Rattle.crm_parse.specs.FirstFaults.{BeginsLine, FirstFault, LacksEnabled, LacksPair, StaysRefused};
ghost use Rattle.crm_parse.specs.Groups.{clone_at, group_at};
ghost use Rattle.crm_parse.specs.Location.{location_at};
ghost use Rattle.crm_parse.specs.Node.{node_statement_at};
ghost use Rattle.crm_parse.specs.Order.{order_at};
ghost use Rattle.crm_parse.specs.Primitive.{primitive_at};
ghost use Rattle.crm_parse.specs.Settings.{settings_at};
ghost use Rattle.crm_parse.specs.Statements.{draft_of};
ghost use Rattle.crm_parse.specs.Grammar.ColocationForm.{ColocationSays};
ghost use Rattle.crm_parse.specs.Grammar.Configurations.{ConfigurationSays};
ghost use Rattle.crm_parse.specs.Grammar.Lines.{LineSays};
ghost use Rattle.crm_parse.specs.Grammar.LocationForms.{LocationSays};
ghost use Rattle.crm_parse.specs.Grammar.NodeForm.{NodeSays};
ghost use Rattle.crm_parse.specs.Grammar.OrderForm.{OrderSays};
ghost use Rattle.crm_parse.specs.Grammar.PrimitiveForm.{PrimitiveSays};
ghost use Rattle.crm_parse.specs.Grammar.SettingsForm.{SettingsSay};
ghost use Rattle.crm_parse.specs.Grammar.ResourceForms.{CloneSays, GroupSays};

/// The words of a line are read as a statement, after some statements, just when they say it.
pub fn lines_are_read_as_they_say()
    ensures { (before : List DraftOf) (words : List (List ℕ)) (statement : StatementOf)
        → (draft_of before words ≡ Ok statement) ↔ LineSays before words statement }
{}

/// The words of a line say one statement at most, so no two statements have the same words.
pub fn statements_of_lines_are_unique()
    ensures { (before : List DraftOf) (words : List (List ℕ)) (one other : StatementOf) → LineSays before words one → LineSays before words other
        → one ≡ other }
{}

/// A line is refused just when its words say no statement.
pub fn lines_that_say_nothing_are_refused()
    ensures refused { (before : List DraftOf) (words : List (List ℕ)) → ((statement : StatementOf) → LineSays before words statement → ⊥)
        → (cause : CauseOf) × (draft_of before words ≡ Err cause) }
    ensures nothing { (before : List DraftOf) (words : List (List ℕ)) (cause : CauseOf) (statement : StatementOf) → draft_of before words ≡ Err cause
        → LineSays before words statement → ⊥ }
{}

/// The words after `node` are read as a node just when they say it.
pub fn nodes_are_read_as_they_say()
    ensures { (words : List (List ℕ)) (form : FormOf) → (node_statement_at words ≡ Ok form) ↔ NodeSays words form }
{}

/// The words after `primitive` are read as a primitive just when they say it.
pub fn primitives_are_read_as_they_say()
    ensures { (words : List (List ℕ)) (form : FormOf) → (primitive_at words ≡ Ok form) ↔ PrimitiveSays words form }
{}

/// The words after `group` are read as a group just when they say it.
pub fn groups_are_read_as_they_say()
    ensures { (words : List (List ℕ)) (form : FormOf) → (group_at words ≡ Ok form) ↔ GroupSays words form }
{}

/// The words after `clone`, or after `ms` or `master`, are read as a clone just when they say it.
pub fn clones_are_read_as_they_say()
    ensures { (ms : Bool) (words : List (List ℕ)) (form : FormOf) → (clone_at ms words ≡ Ok form) ↔ CloneSays ms words form }
{}

/// The words after `order` are read as an order just when they say it.
pub fn orders_are_read_as_they_say()
    ensures { (words : List (List ℕ)) (order : OrderOf) → (order_at words ≡ Ok order) ↔ OrderSays words order }
{}

/// The words after `colocation` are read as a colocation just when they say it.
pub fn colocations_are_read_as_they_say()
    ensures { (words : List (List ℕ)) (form : FormOf) → (colocation_at words ≡ Ok form) ↔ ColocationSays words form }
{}

/// The words after `location` are read as a location, with a node or with rules, just when they say it.
pub fn locations_are_read_as_they_say()
    ensures { (words : List (List ℕ)) (form : FormOf) → (location_at words ≡ Ok form) ↔ LocationSays words form }
{}

/// The words after `property`, `rsc_defaults` or `op_defaults` are read as settings, after some statements, just when they say them.
pub fn settings_are_read_as_they_say()
    ensures { (what : SettingsOf) (before : List DraftOf) (words : List (List ℕ)) (form : FormOf)
        → (settings_at what before words ≡ Ok form) ↔ SettingsSay what before words form }
{}

/// The lines of a text say the statements of one configuration at most.
pub fn configurations_of_texts_are_unique()
    ensures { (lines : List LineOf) (one other : List DraftOf) → ConfigurationSays lines one → ConfigurationSays lines other → one ≡ other }
{}

/// A fault stays: words that are refused for another cause than a missing word are refused for it whatever words stand behind. Two are named
/// apart: a line without words, and words behind that say whether an operation is enabled, since a monitor that is switched off needs no room.
pub fn a_fault_stays_whatever_stands_behind()
    ensures { (before : List DraftOf) (words : List (List ℕ)) (cause : CauseOf) → words ≢ [] → cause ≢ MissingWord
        → draft_of before words ≡ Err cause → StaysRefused before words cause }
{}

/// A line that is refused for a missing word ends too early: with some words more it says a statement. Or a section has no pair and stands before
/// the word of another one that the statement may have, and with that word no line says any.
pub fn a_missing_word_is_missing_at_the_end_or_in_a_section()
    ensures { (before : List DraftOf) (words : List (List ℕ)) → draft_of before words ≡ Err MissingWord
        → BeginsLine before words ⊎ LacksPair before words }
{}

/// A line that says nothing and ends too early is refused for a missing word.
pub fn a_line_that_ends_too_early_lacks_a_word()
    ensures { (before : List DraftOf) (words : List (List ℕ)) → words ≢ [] → ((statement : StatementOf) → LineSays before words statement → ⊥)
        → BeginsLine before words → draft_of before words ≡ Err MissingWord }
{}

/// A line that is refused for another cause than a missing word has a first faulty word: with some words behind them the words before it say a
/// statement, and with the faulty one they are refused for this cause, whatever stands behind. Lines that say whether an operation is enabled
/// are named apart.
pub fn a_refused_line_has_a_first_faulty_word()
    ensures { (before : List DraftOf) (words : List (List ℕ)) (cause : CauseOf) → words ≢ [] → cause ≢ MissingWord
        → AllByRecursion LacksEnabled words → draft_of before words ≡ Err cause → FirstFault before words cause }
{}
