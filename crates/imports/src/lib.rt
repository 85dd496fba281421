// Imports: what a unit brings into its scope from other units.
#![tactic(auto)]

ghost use Rattle.std.specs.Prelude.{◌≡◌, List, [], ◌∷◌, map, ℕ, ◌≤◌, eqb, length, Some};
ghost use Rattle.std.specs.Option.{unwrap_or};
ghost use Rattle.ast.specs.Kind.{kind_number};
ghost use Rattle.definition.specs.Basics.{when◌then◌else◌, first as first_with, concat_map};
ghost use Rattle.definition.specs.Sheet.{a, b, kids as kids_in, kids_of as kids_of_in};
ghost use Rattle.definition.specs.Outside.{Outside};
ghost use Rattle.definition.specs.Meaning.{named, nothing};
ghost use Rattle.definition.specs.Walk.{bring as brings, exports, seen, imports};
ghost use Rattle.machine.specs.Machine.{Scopes, step_state, run_state};
ghost use Rattle.sheet.specs.Exports.{export_of};
ghost use Rattle.symbols.specs.OpenDecls.{meant, StandsFor};
ghost use Rattle.walk.specs.WalkState.{after, state_of, Same};

use ast::kind::Kind;
use ast::question::{Question, Refusal};
use ast::{ClassId, FIRST_CLASS, FunId, column, flag};
use sheet::{find_export, kids, kids_of};
use symbols::decl::{OpenDecl, define};
use walk::state::Walker;
use words::{is_kind, word};

// Export row `x` (0: none) as an open declaration.
fn exported(sheet: &[u32], x: u32) -> Option<OpenDecl>
    requires { length sheet.now ≤ 16384 }
    ensures value { meant result ≡ export_of sheet.now x }
    ensures stands { (d : OpenDecl) (p : Scopes) → result ≡ Some d → StandsFor d (export_of sheet.now x) p }
{
    if x == 0 {
        None
    } else if is_kind(sheet, x, Kind::FunctionExport) {
        Some(OpenDecl::Fun(FunId(word(sheet, x, column::B))))
    } else if is_kind(sheet, x, Kind::Class) {
        Some(OpenDecl::Class(ClassId(FIRST_CLASS + x)))
    } else if is_kind(sheet, x, Kind::ConstantExport) {
        Some(OpenDecl::Global {
            number: word(sheet, x, column::B),
            mutable: 0,
        })
    } else {
        None
    }
}

// Import row `i` declares name `m` as export row `x` (0: none). Is there such an export, and is the name new in its scope?
fn bring(walk: &mut Walker<'_, '_>, i: u32, m: u32, x: u32) -> Result<(), Refusal>
    requires { length walk.old.sheet.now ≤ 16384 }
    ensures step { (O : Outside) → after walk.new result
        ≡ step_state O walk.old.sheet.now (brings i m (export_of walk.old.sheet.now x)) (state_of walk.old) }
    ensures same { Same walk.old walk.new }
{
    let (sheet, env) = (walk.sheet, walk.env);
    let Some(d) = exported(sheet, x) else {
        return Err(Refusal {
            question: Question::Exported,
            at: i,
            name: m,
        });
    };
    if walk.has_local(m) {
        return Err(Refusal {
            question: Question::NameFree,
            at: i,
            name: m,
        });
    }
    walk.env = define(sheet, m, d, env, walk.entries);
    Ok(())
}

// All exports of a kind of unit row `u`, in the order of its children. A loop of one call, as `import_listed` and `declare_kind` of crate `walk` are: they differ in the
// rows and in the call, so a routine for all would take an iterator and a closure, and be longer than the three.
fn import_kind(walk: &mut Walker<'_, '_>, u: u32, kind: Kind, i: u32) -> Result<(), Refusal>
    requires { length walk.old.sheet.now ≤ 16384 }
    ensures step { (O : Outside) → after walk.new result
        ≡ run_state O walk.old.sheet.now
        (map (λ k. brings i (a walk.old.sheet.now k) (export_of walk.old.sheet.now k)) (kids_of_in walk.old.sheet.now (kind_number kind) u))
        (state_of walk.old) }
    ensures same { Same walk.old walk.new }
{
    for export in kids_of(walk.sheet, u, kind) {
        let name = word(walk.sheet, export, column::A);
        bring(walk, i, name, export)?;
    }
    Ok(())
}

// All exports of unit row `u`: functions, classes, constants.
fn import_all(walk: &mut Walker<'_, '_>, u: u32, i: u32) -> Result<(), Refusal>
    requires { length walk.old.sheet.now ≤ 16384 }
    ensures step { (O : Outside) → after walk.new result
        ≡ run_state O walk.old.sheet.now (map (λ y. brings i y.name y.means) (exports walk.old.sheet.now u)) (state_of walk.old) }
    ensures same { Same walk.old walk.new }
{
    import_kind(walk, u, Kind::FunctionExport, i)?;
    import_kind(walk, u, Kind::Class, i)?;
    import_kind(walk, u, Kind::ConstantExport, i)
}

// All names that import row `i` of unit row `u` lists, each as the export that the import finds for it.
fn import_listed(walk: &mut Walker<'_, '_>, u: u32, i: u32) -> Result<(), Refusal>
    requires { length walk.old.sheet.now ≤ 16384 }
    ensures step { (O : Outside) → after walk.new result
        ≡ run_state O walk.old.sheet.now
        (map (λ k. brings i (a walk.old.sheet.now k)
        (first_with (λ y. eqb y.name (a walk.old.sheet.now k)) (named 0 nothing) (seen walk.old.sheet.now u i)).means)
        (kids_in walk.old.sheet.now i)) (state_of walk.old) }
    ensures same { Same walk.old walk.new }
{
    for listed in kids(walk.sheet, i) {
        let name = word(walk.sheet, listed, column::A);
        let export = find_export(walk.sheet, u, i, name).unwrap_or(0);
        bring(walk, i, name, export)?;
    }
    Ok(())
}

// All that unit row `u` sees of the unit that import row `i` names, if the import says so. A unit sees nothing of itself.
fn import_seen(walk: &mut Walker<'_, '_>, u: u32, i: u32) -> Result<(), Refusal>
    requires { length walk.old.sheet.now ≤ 16384 }
    ensures step { (O : Outside) → after walk.new result
        ≡ run_state O walk.old.sheet.now
        (when eqb (b walk.old.sheet.now i) 1 then map (λ y. brings i y.name y.means) (seen walk.old.sheet.now u i) else [])
        (state_of walk.old) }
    ensures same { Same walk.old walk.new }
{
    if word(walk.sheet, i, column::B) != flag::IMPORT_ALL {
        return Ok(());
    }
    let unit = word(walk.sheet, i, column::A);
    if unit == u {
        return Ok(());
    }
    import_all(walk, unit, i)
}

// Import row `i` of unit row `u`: all that it sees, if it says so; then each listed name.
fn import_one(walk: &mut Walker<'_, '_>, u: u32, i: u32) -> Result<(), Refusal>
    requires { length walk.old.sheet.now ≤ 16384 }
    ensures step { (O : Outside) → after walk.new result ≡ run_state O walk.old.sheet.now (imports walk.old.sheet.now u i) (state_of walk.old) }
    ensures same { Same walk.old walk.new }
{
    import_seen(walk, u, i)?;
    import_listed(walk, u, i)
}

// All imports of unit row `u`, in the order of its children.
pub fn define_imports(walk: &mut Walker<'_, '_>, u: u32) -> Result<(), Refusal>
    requires { length walk.old.sheet.now ≤ 16384 }
    ensures step { (O : Outside) → after walk.new result
        ≡ run_state O walk.old.sheet.now (concat_map (imports walk.old.sheet.now u) (kids_of_in walk.old.sheet.now 3 u)) (state_of walk.old) }
    ensures same { Same walk.old walk.new }
{
    for import in kids_of(walk.sheet, u, Kind::Import) {
        import_one(walk, u, import)?;
    }
    Ok(())
}
