// The outermost scope: the names from outside as the first open entries.
#![tactic(auto)]

ghost use Rattle.std.specs.Prelude.{◌≡◌};
ghost use Rattle.machine.specs.Machine.{Scopes, no_scopes, open_names};
ghost use Rattle.outside.specs.Words.{name_at, over};
ghost use Rattle.symbols.specs.OpenScopes.{scopes_of};
ghost use Rattle.symbols.specs.OpenDecls.{StandsFor};

use ast::code::Code;
use ast::{ClassId, FunId, column};
use outside::layout;
use symbols::decl::{OpenDecl, define};
use symbols::env::Env;
use words::word;

// What the name of row `i` of the outside means.
fn visible_at(outside: &[u32], i: u32) -> OpenDecl
    ensures { (p : Scopes) → StandsFor result (name_at outside.now i).means p }
{
    let number = word(outside, i, layout::NUMBER);
    let code = word(outside, i, layout::CODE);
    if code == Code::Fun as u32 {
        return OpenDecl::Fun(FunId(number));
    }
    if code == Code::Class as u32 {
        return OpenDecl::Class(ClassId(number));
    }
    OpenDecl::Global {
        number,
        mutable: word(outside, i, layout::MUTABLE),
    }
}

// Opens the names from outside, the first of them innermost. Their rows are those before the first record.
pub fn open_names(sheet: &[u32], outside: &[u32], entries: &mut [u32]) -> Env
    ensures { scopes_of result entries.new
        ≡ open_names sheet.now (over outside.now).names (no_scopes sheet.now entries.old) }
{
    let globals = word(sheet, 0, column::A);
    let mut env = Env {
        count: 0,
        slot: 0,
        fun: FunId(0),
        globals,
    };
    for i in (1..word(outside, 0, layout::NAMES_END)).rev() {
        let name = word(outside, i, layout::NAME);
        env = define(sheet, name, visible_at(outside, i), env, entries);
    }
    env
}
