//! What follows from the definitions of `specs/`, for every configuration.

ghost use Rattle.std.specs.Prelude.{◌≡◌, ◌++◌, ◌∷◌, [], List, ℕ, Ok, true};
ghost use Rattle.crm_lex.specs.declared.line.Line.{Line as LineOf};
ghost use Rattle.crm_lex.specs.Reading.{reads};
ghost use Rattle.crm_parse.specs.declared.statement.Crm.{Crm as CrmOf};
ghost use Rattle.crm_parse.specs.Statements.{statements_of};
ghost use Rattle.crm_print.specs.PrintedAgain.{IsComment, ReadsAs, forms_of, has_short_lines};
ghost use Rattle.crm_print.specs.Text.{canonical_text};

/// What is printed reads again: the canonical text of the statements that are read of a text, or of its first lines, is read as the same
/// statements, but for their lines, where none of its own lines is longer than a line may be.
pub fn what_is_printed_reads_again()
    ensures { (text : List ℕ) (lines rest : List LineOf) (crm : CrmOf) → reads text ≡ Ok (lines ++ rest) → statements_of lines ≡ Ok crm
        → has_short_lines crm ≡ true → ReadsAs (canonical_text crm) crm }
{}

/// The same where a comment stands behind what is printed.
pub fn what_is_printed_before_a_comment_reads_again()
    ensures { (text comment : List ℕ) (lines rest : List LineOf) (crm : CrmOf) → reads text ≡ Ok (lines ++ rest) → statements_of lines ≡ Ok crm
        → has_short_lines crm ≡ true → IsComment comment → ReadsAs (canonical_text crm ++ (comment ++ 10 ∷ [])) crm }
{}

/// Canonical text is its own canonical text: it hangs on what the statements say, and not on their lines.
pub fn canonical_text_is_canonical()
    ensures { (one other : CrmOf) → forms_of one ≡ forms_of other → canonical_text one ≡ canonical_text other }
{}
