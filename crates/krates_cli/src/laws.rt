//! Laws of the command line, for all words. Each is the contract of a function that does nothing.

ghost use Rattle.std.specs.Prelude.{◌≡◌, ◌⊎◌, IsUtf8, List, Option};
ghost use Rattle.krates_cm.specs.Document.{Text};
ghost use Rattle.krates_ids.specs.Identity.{Identity};
ghost use Rattle.krates_cli.specs.CommandLine.{AskForListing, IsCause};
ghost use Rattle.krates_cli.specs.Listing.{IsListing};
ghost use Rattle.krates_cli.specs.ListingRefusals.{IsOutside, KeepsNot, RunRefusal};
ghost use Rattle.krates_cli.specs.declared.run_error.RunError.{RunError};
ghost use Rattle.krates_cli.specs.declared.run_error.RunError.TheVariants as errors;
ghost use Rattle.krates_cli.specs.Options.{IsCommandLine, OptionsModel};
ghost use Rattle.krates_cli.specs.Request.{Request};

use krates_ids::laws;
use krates_rules::laws as rules;

/// Words mean at most one thing.
pub fn one_command_line()
    ensures { (words : List Text) (a b : OptionsModel) → IsCommandLine words a → IsCommandLine words b → a ≡ b }
{
    laws::one_specification();
    laws::one_reading();
}

/// Where words request a listing, and what is to be read has one, a run is refused only if a call fails, memory
/// runs out, or more crates are kept than can be numbered. So, apart from these cases, it succeeds exactly where there is a
/// listing. Where the crate to be explained isn't kept, a run is refused for that, again apart from these cases.
pub fn listed_or_refused()
    ensures text { (a : Request) (bytes lines : Text) (cause : RunError)
        → IsUtf8 bytes → IsListing a bytes lines → RunRefusal a bytes cause → IsOutside cause }
    ensures unkept { (a : Request) (bytes : Text) (krate : Identity) (cause : RunError)
        → IsUtf8 bytes → KeepsNot a bytes krate → RunRefusal a bytes cause
        → (cause ≡ errors.NotKept krate) ⊎ IsOutside cause }
    ensures words { (words : List Text) (remaining : Option Text) (cause : RunError)
        → AskForListing words remaining → IsCause words remaining cause → IsOutside cause }
{
    laws::one_reading();
    laws::one_specification();
    rules::accepted_lists();
}
