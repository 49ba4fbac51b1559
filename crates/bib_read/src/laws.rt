//! What holds of every text.

ghost use Rattle.std.specs.Prelude.{◌≡◌, ◌↔◌, ℕ, ◌≤◌, List, [], length, Ok, Err};
ghost use Rattle.bib_read.specs.Faults.{FaultStandsIn};
ghost use Rattle.bib_read.specs.Additions.{AreNew, HasGrown};
ghost use Rattle.bib_read.specs.Entering.{take_fields};
ghost use Rattle.bib_read.specs.Meaning.{BibReads};
ghost use Rattle.bib_read.specs.Progress.{Progress};
ghost use Rattle.bib_read.specs.Reading.{database_of, take_items};
ghost use Rattle.bib_read.specs.declared.database.Database.{Database};
ghost use Rattle.bib_read.specs.declared.fault.BibFault.{BibFault};
ghost use Rattle.bib_read.specs.Values.{take_pieces};

/// Each piece, field and item takes at least one byte, so as many rounds as bytes are left are enough: with more of
/// them the same is read.
pub fn rounds_are_enough()
    ensures pieces { (n : ℕ) (p : Progress) → length p.left ≤ n → take_pieces n p ≡ take_pieces (length p.left) p }
    ensures fields { (n close : ℕ) (key : List ℕ) (p : Progress) → length p.left ≤ n
        → take_fields n close key p ≡ take_fields (length p.left) close key p }
    ensures items { (n : ℕ) (p : Progress) → length p.left ≤ n → take_items n p ≡ take_items (length p.left) p }
{}

/// A text is read as a database exactly where the grammar says so: it spells items, with other text between them, no
/// key is that of an entry before, and the items give the database.
pub fn read_as_the_grammar(source: &[u8])
    ensures { (before database : Database) → (database_of source.now before ≡ Ok database) ↔ BibReads source.now before database }
{}

/// Every fault of a text stands at a byte of it or at its end.
pub fn faults_in_the_text(source: &[u8])
    ensures { (before : Database) → (fault : BibFault) → database_of source.now before ≡ Err fault → FaultStandsIn source.now fault }
{}

/// What was read before a text stays: its macros are defined before those of the text, and its entries, its preamble
/// and its warnings come before what the text adds. Each entry that is added has a key, which no entry before it has
/// once both are lowered; so where each entry before has a key of its own, each entry has one.
pub fn what_was_read_stays()
    ensures grown { (source : List ℕ) (before after : Database) → database_of source before ≡ Ok after
        → HasGrown before after }
    ensures apart { (source : List ℕ) (before after : Database) → database_of source before ≡ Ok after
        → AreNew [] before.entries → AreNew [] after.entries }
{}
