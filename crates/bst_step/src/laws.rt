//! What holds of the definitions that the machine meets.

ghost use Rattle.std.specs.Prelude.{◌≡◌, ℕ, ◌+◌, ◌<◌, ◌≤◌, List, [], ◌++◌, None, Some, length};
ghost use Rattle.name_table.specs.declared.style.Style.{Style};
ghost use Rattle.bst_meaning.specs.EntryLists.{EntryList};
ghost use Rattle.bst_meaning.specs.Config.{Config, Event, opening};
ghost use Rattle.bst_meaning.specs.Lines.{Cut, broken, cut_of, lines_after};
ghost use Rattle.bst_meaning.specs.Machine.{steps};
ghost use Rattle.bst_step.specs.Lines.{Spelt, added, first};
ghost use Rattle.bst_step.specs.Machine.{HasEntriesOf, behind, key_at, key_of};

/// A buffer is broken as often as it can be. Each cut makes it shorter, so as many cuts as it has bytes are enough: with
/// more of them the page is the same, and of the buffer that is left nothing can be cut.
pub fn lines_are_broken_to_the_end()
    ensures shorter { (buffer : List ℕ) (cut : Cut) → cut_of buffer ≡ Some cut → length cut.rest < length buffer }
    ensures enough { (n : ℕ) (lines : List (List ℕ)) (buffer : List ℕ) → length buffer ≤ n
        → broken n lines buffer ≡ broken (length buffer) lines buffer }
    ensures none_left { (lines : List (List ℕ)) (buffer : List ℕ) → cut_of (broken (length buffer) lines buffer).buffer ≡ None }
{}

/// Where the entries are those with which a run opened with their positions, in some order, the key of the entry with a
/// position is that of the entry at the position of the list. So it is after every call of a machine, a broken one too.
pub fn keys_are_those_of_the_list()
    ensures { (style : Style) (list : EntryList) (c : Config) (position : ℕ) → HasEntriesOf (opening style list) c
        → key_at position c.entries ≡ key_of position list }
{}

/// What steps do doesn't depend on what was written before: they only write behind it. So a run goes on in the same way where
/// its events were taken out.
pub fn steps_leave_what_was_written()
    ensures { (style : Style) (n : ℕ) (c : Config) → steps style n c ≡ behind c.events (steps style n (record c { events = [] })) }
{}

/// A run of so many steps and then of more is one of both together.
pub fn steps_add_up()
    ensures { (style : Style) (k n : ℕ) (c : Config) → steps style (k + n) c ≡ steps style n (steps style k c) }
{}

/// Events that are added to a page part by part give the page of all, which has the lines that they finish. The text that a
/// page has already only stands in front.
pub fn pages_add_up()
    ensures parts { (page : Spelt) (before after : List Event) → added page (before ++ after) ≡ added (added page before) after }
    ensures front { (text : List ℕ) (page : Spelt) (events : List Event)
        → added (record { text = text ++ page.text; buffer = page.buffer }) events
        ≡ record { text = text ++ (added page events).text; buffer = (added page events).buffer } }
    ensures whole { (events : List Event) → (added first events).text ≡ lines_after events }
{}
