//! What holds of every style that is checked or run and of the files of every run.

ghost use Rattle.std.specs.Prelude.{◌≡◌, ◌↔◌, ℕ, List, Some, Ok, Err};
ghost use Rattle.bst_meaning.specs.Machine.{run};
ghost use Rattle.bst_run.specs.AuxChain.{needs_after, needs_of};
ghost use Rattle.bst_run.specs.FileFaults.{IsFileFault};
ghost use Rattle.bst_run.specs.InputTrees.{NeedsRead};
ghost use Rattle.bst_run.specs.Subjects.{Cert, EntryList, IsOfByte, Listing, Refusal, StandsIn, Stopped, Style, checked, style_of};
ghost use Rattle.bst_run.specs.declared.files.requests.Needs.{Needs};
ghost use Rattle.bst_run.specs.declared.outcome.Outcome.{Outcome};

use bst_parse::laws::places_in_the_text;
use command_flow::laws::refusals_in_the_style;

/// A first `.aux` file and its inputs are what a run needs exactly where there is a tree of inputs that nests at most 16
/// deep: each is there and is read by the grammar, their citations stand where they are named, and one style and one line
/// of databases are named among them.
pub fn inputs_as_the_tree()
    ensures { (told : Listing) (name text : List ℕ) (needs : Needs) → (needs_after told name text ≡ Ok needs) ↔ NeedsRead told text needs }
{}

/// The first rule that fails of a certificate for a style that was read stands at a byte of the style's text, or at its end.
pub fn refusals_in_the_text(source: &[u8])
    ensures { (style : Style) (cert : Cert) (refusal : Refusal) → style_of source.now ≡ Ok style → checked style cert ≡ Err refusal
        → StandsIn source.now refusal.place }
{
    places_in_the_text(source);
    refusals_in_the_style();
}

/// An execution error of a style that was read stands at a byte of the style's text, over every list of entries.
pub fn sites_in_the_text(source: &[u8])
    ensures { (style : Style) (list : EntryList) (n : ℕ) (stopped : Stopped) → style_of source.now ≡ Ok style
        → (run style list n).stopped ≡ Some stopped → IsOfByte source.now stopped.site.place }
{
    places_in_the_text(source);
}

/// What stops the reading of the `.aux` files of a run names a file that isn't there or is too long, or one that is at
/// fault, and then the fault stands at a byte of that file's text or at its end.
pub fn faults_in_their_files()
    ensures { (told : Listing) (name : List ℕ) (outcome : Outcome) → needs_of told name ≡ Err outcome → IsFileFault told outcome }
{}
