//! Names and types of entries, worked out by hand.

use bv_base::memory::NoMemory;
use bv_base::place::Place;
use bv_base::seq::Seq;
use name_table::builtin::Builtin;
use name_table::names::{DefineFault, Kind, NameId, Names};
use name_table::opening::{CROSSREF, ENTRY_MAX, GLOBAL_MAX, SKIP, SORT_KEY};
use name_table::style::{BodyId, Command, CommandAt, Style, TypeTarget};
use std::alloc::Global;
use std::process::Abort;
use std::test::Fail;

/// The names of every style, with their ids and kinds.
static OPENING: [(&[u8], u32, Kind); 41] = [
    (b"=", 0, Kind::Builtin(Builtin::Equal)),
    (b">", 1, Kind::Builtin(Builtin::Greater)),
    (b"<", 2, Kind::Builtin(Builtin::Less)),
    (b"+", 3, Kind::Builtin(Builtin::Plus)),
    (b"-", 4, Kind::Builtin(Builtin::Minus)),
    (b"*", 5, Kind::Builtin(Builtin::Join)),
    (b":=", 6, Kind::Builtin(Builtin::Assign)),
    (b"add.period$", 7, Kind::Builtin(Builtin::AddPeriod)),
    (b"call.type$", 8, Kind::Builtin(Builtin::CallType)),
    (b"change.case$", 9, Kind::Builtin(Builtin::ChangeCase)),
    (b"chr.to.int$", 10, Kind::Builtin(Builtin::ChrToInt)),
    (b"cite$", 11, Kind::Builtin(Builtin::Cite)),
    (b"duplicate$", 12, Kind::Builtin(Builtin::Duplicate)),
    (b"empty$", 13, Kind::Builtin(Builtin::Empty)),
    (b"format.name$", 14, Kind::Builtin(Builtin::FormatName)),
    (b"if$", 15, Kind::Builtin(Builtin::IfElse)),
    (b"int.to.chr$", 16, Kind::Builtin(Builtin::IntToChr)),
    (b"int.to.str$", 17, Kind::Builtin(Builtin::IntToStr)),
    (b"missing$", 18, Kind::Builtin(Builtin::Missing)),
    (b"newline$", 19, Kind::Builtin(Builtin::Newline)),
    (b"num.names$", 20, Kind::Builtin(Builtin::NumNames)),
    (b"pop$", 21, Kind::Builtin(Builtin::Pop)),
    (b"preamble$", 22, Kind::Builtin(Builtin::Preamble)),
    (b"purify$", 23, Kind::Builtin(Builtin::Purify)),
    (b"quote$", 24, Kind::Builtin(Builtin::Quote)),
    (b"skip$", 25, Kind::Builtin(Builtin::Skip)),
    (b"stack$", 26, Kind::Builtin(Builtin::Stack)),
    (b"substring$", 27, Kind::Builtin(Builtin::Substring)),
    (b"swap$", 28, Kind::Builtin(Builtin::Swap)),
    (b"text.length$", 29, Kind::Builtin(Builtin::TextLength)),
    (b"text.prefix$", 30, Kind::Builtin(Builtin::TextPrefix)),
    (b"top$", 31, Kind::Builtin(Builtin::Top)),
    (b"type$", 32, Kind::Builtin(Builtin::TypeName)),
    (b"warning$", 33, Kind::Builtin(Builtin::Warning)),
    (b"while$", 34, Kind::Builtin(Builtin::WhileDo)),
    (b"width$", 35, Kind::Builtin(Builtin::Width)),
    (b"write$", 36, Kind::Builtin(Builtin::Write)),
    (b"crossref", 37, Kind::Field),
    (b"sort.key$", 38, Kind::StrEntry),
    (b"entry.max$", 39, Kind::IntGlobal),
    (b"global.max$", 40, Kind::IntGlobal),
];

/// The names of every style. Nothing is told of them, so that no proof of a test sees all of them.
fn opened(alloc: Global) -> Result<Names, NoMemory> {
    Names::opening(alloc)
}

/// Names, and the id with which each is found.
static FOUND: [(&[u8], Option<NameId>); 6] = [
    (b"title", None),
    (b"Skip$", None),
    (b"crossref", Some(CROSSREF)),
    (b"sort.key$", Some(SORT_KEY)),
    (b"entry.max$", Some(ENTRY_MAX)),
    (b"global.max$", Some(GLOBAL_MAX)),
];

#[test]
fn opening_names(rt: HostRuntime) -> Result<(), Fail> {
    let names = opened(rt.alloc())?;
    assert_eq!(rt; names.len(), 41);
    have_names(&rt, &names, &OPENING);
    are_found(&rt, &names, &FOUND);
    Ok(())
}

fn are_found(rt: &impl Abort, names: &Names, rows: &[(&[u8], Option<NameId>)]) {
    for (name, id) in rows {
        assert_eq!(rt; names.find(name), *id);
    }
}

fn have_names(rt: &impl Abort, names: &Names, rows: &[(&[u8], u32, Kind)]) {
    for (name, id, kind) in rows {
        let Some(found) = names.find(name) else {
            panic!(rt; "a name is missing");
        };
        assert_eq!(rt; found, NameId(*id));
        assert_eq!(rt; names.kind(found), *kind);
        assert_eq!(rt; names.text(found), *name);
    }
}

/// A definition of a name, and its answer.
type Definition<'a> = (&'a [u8], Kind, Result<NameId, DefineFault>);

static DEFINITIONS: [Definition; 4] = [
    (b"title", Kind::Field, Ok(NameId(41))),
    (b"f", Kind::Wizard(BodyId(0)), Ok(NameId(42))),
    (
        b"title",
        Kind::IntEntry,
        Err(DefineFault::AlreadyDefined(NameId(41))),
    ),
    (
        b"skip$",
        Kind::Field,
        Err(DefineFault::AlreadyDefined(SKIP)),
    ),
];

#[test]
fn definitions(rt: HostRuntime) -> Result<(), Fail> {
    let mut names = opened(rt.alloc())?;
    are_answered(&rt, &mut names, &DEFINITIONS);
    assert_eq!(rt; names.find(b"f"), Some(NameId(42)));
    assert_eq!(rt; names.len(), 43);
    Ok(())
}

fn are_answered(rt: &impl Abort, names: &mut Names, rows: &[Definition]) {
    for (name, kind, answer) in rows {
        assert_eq!(rt; names.define(name, *kind), *answer);
    }
}

/// What a type of entries enters after these commands.
#[derive(Clone, Copy)]
struct Typed {
    commands: &'static [Command],
    entry_type: &'static [u8],
    target: TypeTarget,
}

macro_rules! typed {
    ($commands:expr, $entry_type:literal => $target:expr) => {
        Typed {
            commands: &$commands,
            entry_type: $entry_type,
            target: $target,
        }
    };
}

const ARTICLE: NameId = NameId(41);

const DEFAULT: NameId = NameId(42);

const DEFINES_ARTICLE: Command = Command::Function(ARTICLE);

const DEFINES_DEFAULT: Command = Command::Function(DEFAULT);

static TYPED: [Typed; 7] = [
    typed!([DEFINES_ARTICLE, Command::Read], b"article" => TypeTarget::Function(ARTICLE)),
    typed!([Command::Read, DEFINES_ARTICLE], b"article" => TypeTarget::Skip),
    typed!([DEFINES_ARTICLE], b"article" => TypeTarget::Skip),
    typed!([DEFINES_DEFAULT, Command::Read], b"article" => TypeTarget::Default(DEFAULT)),
    typed!([DEFINES_DEFAULT, Command::Read], b"book" => TypeTarget::Default(DEFAULT)),
    typed!([DEFINES_DEFAULT, Command::Read, DEFINES_ARTICLE], b"article" => TypeTarget::Default(DEFAULT)),
    typed!([DEFINES_DEFAULT, DEFINES_ARTICLE, Command::Read], b"title" => TypeTarget::Default(DEFAULT)),
];

#[test]
fn types_before_and_after_read(rt: HostRuntime) -> Result<(), Fail> {
    for row in &TYPED {
        let style = style_of(rt.alloc(), row.commands)?;
        assert_eq!(rt; style.names.find(b"article"), Some(ARTICLE));
        assert_eq!(rt; style.names.find(b"default.type"), Some(DEFAULT));
        assert_eq!(rt; style.type_target(row.entry_type), row.target);
    }
    Ok(())
}

/// A style with two functions and these commands, all at one place.
fn style_of(alloc: Global, commands: &[Command]) -> Result<Style, NoMemory> {
    let mut names = opened(alloc)?;
    let _article = names.define(b"article", Kind::Wizard(BodyId(0)));
    let _default = names.define(b"default.type", Kind::Wizard(BodyId(1)));
    let mut list = Seq::new(alloc);
    for command in commands {
        list.push(CommandAt {
            command: *command,
            place: Place::START,
        })?;
    }
    Ok(Style {
        names,
        commands: list,
        bodies: Seq::new(alloc),
        texts: Seq::new(alloc),
        macros: Seq::new(alloc),
    })
}
