//! Laws of the calls and of the texts of their refusals, for all bytes. Each is the contract of a function that does nothing.

ghost use Rattle.std.specs.Str.{NoCharPasses};
ghost use Rattle.krates_cm.specs.Document.{Text};
ghost use Rattle.krates_shown.specs.Shown.{is_hidden};
ghost use Rattle.krates_foreign.specs.Calls.{Draws, Explains, IsOutside, ListRefusal, Lists, WhyRefusal};
ghost use Rattle.krates_foreign.specs.Handing.{TellsRefusal};
ghost use Rattle.krates_foreign.specs.declared.refusal.CallRefusal.{CallRefusal};

use krates_cli::laws as listings;
use krates_ids::laws as ids;

/// Where a document has an answer under the words, no refusal of the call is true except that memory ran out, or that there are more
/// nodes or edges than can be numbered. So, apart from these cases, it is answered exactly where there is an answer.
pub fn answered_or_refused()
    ensures listed { (bytes words lines : Text) (cause : CallRefusal)
        → Lists bytes words lines → ListRefusal bytes words cause → IsOutside cause }
    ensures drawn { (bytes words lines : Text) (cause : CallRefusal)
        → Draws bytes words lines → ListRefusal bytes words cause → IsOutside cause }
    ensures explained { (bytes words id lines : Text) (cause : CallRefusal)
        → Explains bytes words id lines → WhyRefusal bytes words id cause → IsOutside cause }
{
    listings::listed_or_refused();
    listings::one_command_line();
    ids::one_reading();
}

/// The text of a refusal is one line, whatever is in the document, the words and the certificate: nothing in it ends a line, moves the
/// cursor or turns the direction.
pub fn refused_in_one_line()
    ensures { (refusal : CallRefusal) (text : Text) → TellsRefusal refusal text → NoCharPasses is_hidden text }
{}
