//! The names that every style has before its first command.

ghost use Rattle.std.specs.Prelude.{◌≡◌, codes, length, map, Some};
ghost use Rattle.name_table.specs.Names.{id_of};
ghost use Rattle.name_table.specs.Opening.{crossref, entry_max, global_max, opening_count, opening_names, skip, sort_key};

use crate::builtin::Builtin;
use crate::names::{Kind, NameId};

/// The names of every style in the order of their ids: the built-in functions, the field `crossref`, the string
/// variable `sort.key$` of each entry, and the integer variables `entry.max$` and `global.max$`.
pub const OPENING: [(&[u8], Kind); 41] = [
    (b"=", Kind::Builtin(Builtin::Equal)),
    (b">", Kind::Builtin(Builtin::Greater)),
    (b"<", Kind::Builtin(Builtin::Less)),
    (b"+", Kind::Builtin(Builtin::Plus)),
    (b"-", Kind::Builtin(Builtin::Minus)),
    (b"*", Kind::Builtin(Builtin::Join)),
    (b":=", Kind::Builtin(Builtin::Assign)),
    (b"add.period$", Kind::Builtin(Builtin::AddPeriod)),
    (b"call.type$", Kind::Builtin(Builtin::CallType)),
    (b"change.case$", Kind::Builtin(Builtin::ChangeCase)),
    (b"chr.to.int$", Kind::Builtin(Builtin::ChrToInt)),
    (b"cite$", Kind::Builtin(Builtin::Cite)),
    (b"duplicate$", Kind::Builtin(Builtin::Duplicate)),
    (b"empty$", Kind::Builtin(Builtin::Empty)),
    (b"format.name$", Kind::Builtin(Builtin::FormatName)),
    (b"if$", Kind::Builtin(Builtin::IfElse)),
    (b"int.to.chr$", Kind::Builtin(Builtin::IntToChr)),
    (b"int.to.str$", Kind::Builtin(Builtin::IntToStr)),
    (b"missing$", Kind::Builtin(Builtin::Missing)),
    (b"newline$", Kind::Builtin(Builtin::Newline)),
    (b"num.names$", Kind::Builtin(Builtin::NumNames)),
    (b"pop$", Kind::Builtin(Builtin::Pop)),
    (b"preamble$", Kind::Builtin(Builtin::Preamble)),
    (b"purify$", Kind::Builtin(Builtin::Purify)),
    (b"quote$", Kind::Builtin(Builtin::Quote)),
    (b"skip$", Kind::Builtin(Builtin::Skip)),
    (b"stack$", Kind::Builtin(Builtin::Stack)),
    (b"substring$", Kind::Builtin(Builtin::Substring)),
    (b"swap$", Kind::Builtin(Builtin::Swap)),
    (b"text.length$", Kind::Builtin(Builtin::TextLength)),
    (b"text.prefix$", Kind::Builtin(Builtin::TextPrefix)),
    (b"top$", Kind::Builtin(Builtin::Top)),
    (b"type$", Kind::Builtin(Builtin::TypeName)),
    (b"warning$", Kind::Builtin(Builtin::Warning)),
    (b"while$", Kind::Builtin(Builtin::WhileDo)),
    (b"width$", Kind::Builtin(Builtin::Width)),
    (b"write$", Kind::Builtin(Builtin::Write)),
    (b"crossref", Kind::Field),
    (b"sort.key$", Kind::StrEntry),
    (b"entry.max$", Kind::IntGlobal),
    (b"global.max$", Kind::IntGlobal),
];

/// The id of `skip$`.
pub const SKIP: NameId = NameId(25);

/// The id of the field `crossref`.
pub const CROSSREF: NameId = NameId(37);

/// The id of the string variable `sort.key$` of each entry.
pub const SORT_KEY: NameId = NameId(38);

/// The id of the integer variable `entry.max$`.
pub const ENTRY_MAX: NameId = NameId(39);

/// The id of the integer variable `global.max$`.
pub const GLOBAL_MAX: NameId = NameId(40);

/// The program's names of every style are those of the definition.
pub fn names_of_every_style()
    ensures names { map (λ entry. (entry.0.now, entry.1)) OPENING ≡ opening_names }
    ensures count { length opening_names ≡ opening_count }
{}

/// The ids that definitions and the program cite are those of the names.
pub fn ids_of_names()
    ensures skip { (id_of (codes "skip$") opening_names ≡ Some skip) × (SKIP ≡ skip) }
    ensures crossref { (id_of (codes "crossref") opening_names ≡ Some crossref) × (CROSSREF ≡ crossref) }
    ensures sort_key { (id_of (codes "sort.key$") opening_names ≡ Some sort_key) × (SORT_KEY ≡ sort_key) }
    ensures entry_max { (id_of (codes "entry.max$") opening_names ≡ Some entry_max) × (ENTRY_MAX ≡ entry_max) }
    ensures global_max { (id_of (codes "global.max$") opening_names ≡ Some global_max) × (GLOBAL_MAX ≡ global_max) }
{}
