//! How loops are made where a walk finds its hints (docs/ANALYSER.md, "Loops").

ghost use Rattle.std.specs.Prelude.{◌≡◌, ◌≤◌, Option, None, IfOk, IfSome, is_some, length};
ghost use Rattle.std.specs.List.{All};
ghost use Rattle.name_table.specs.declared.style.Style.{Style as StyleValue};
ghost use Rattle.sym_state.specs.WellMade.{WellMade};
ghost use Rattle.cert_check.specs.Certified.{AreSound, CanWalk, MakesLoops, MakesStanding};
ghost use Rattle.cert_check.specs.Walks.{Make, made_by};

use crate::scope::Scope;
use bst_meaning::value::Target;
use bv_base::memory::NoMemory;
use cert_format::cert::Loop;
use name_table::style::Style;
use sym_state::state::State;

/// How the loops of a walk are made. `style` is the style whose loops they are, and `made` has how each is made, where loops are made
/// and not read.
pub trait Loops {
    ghost style: { Self → StyleValue };

    ghost made: { Self → Option Make };

    /// Whether loops are made.
    fn makes(&self) -> bool
        ensures makes { result ≡ is_some (made self.now) }
        ensures sound { IfSome (made self.now) (MakesLoops (style self.now)) }
        ensures stands { IfSome (made self.now) (MakesStanding (style self.now)) };

    /// The loop of two functions that these states enter, where there is one.
    fn make(&self, test: Target, body: Target, entering: &[State]) -> Result<Option<Loop>, NoMemory>
        requires some { 1 ≤ length entering.now }
        requires made { All (WellMade (style self.now)) entering.now }
        ensures { IfOk result (λ found. found ≡ made_by (made self.now) test body entering.now) };
}

/// No loop is made: each is read.
#[derive(Clone, Copy)]
pub struct Unmade<'a> {
    pub style: &'a Style,
}

impl<'a> Unmade<'a> {
    /// The loops of a walk that reads them.
    pub(crate) fn of(scope: &Scope<'a>) -> Unmade<'a>
        requires sound { AreSound scope.now.style scope.now.cert }
        ensures { CanWalk scope.now result.style.now None }
    {
        Unmade {
            style: scope.style(),
        }
    }
}

impl<'a> Loops for Unmade<'a> {
    ghost style = { λ u. u.style.now };

    ghost made = { λ _. None };

    fn makes(&self) -> bool {
        false
    }

    fn make(
        &self,
        _test: Target,
        _body: Target,
        _entering: &[State],
    ) -> Result<Option<Loop>, NoMemory> {
        Ok(None)
    }
}
