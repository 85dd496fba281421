// The state of the walk: what it reads, and the buffers that it fills.
ghost use Rattle.std.specs.Prelude.{◌≡◌, ℕ, ◌+◌, ◌*◌, ◌<◌, ◌≤◌, length, Some};
ghost use Rattle.ast.specs.Decl.{code_and_values};
ghost use Rattle.definition.specs.Sheet.{Sheet};
ghost use Rattle.definition.specs.Walk.{leave};
ghost use Rattle.machine.specs.Machine.{add_new, append_node, field_node, four_words, function_marks, has_key, list_at, seen_in, taken_in, loop_in, lookup_meaning, lookup_slot, lookup_global, lookup_distance, step_scopes};
ghost use Rattle.symbols.specs.OpenScopes.{scopes_of};
ghost use Rattle.symbols.specs.OpenDecls.{means, meant, slot_or, number_or};
ghost use Rattle.store.specs.Stored.{functions_from, node_of};
ghost use Rattle.walk.specs.WalkState.{state_of, scopes_in, stored_of, Same};

use ast::question::Refusal;
use ast::{Decl, FunId};
use store::code::seen_in;
use store::nodes::{
    FunctionMark, Node, Store, append_node, has_key, innermost_function, reg_field,
};
use store::result;
use symbols::decl::{Found, OpenDecl, lookup};
use symbols::env::{Env, has_local, in_loop, pop_scope};
use words::word;

// How a walk ended, without the buffers that it was lent: the counters of the scopes and of the store, and the refusal, if a question got a no.
#[derive(Clone, Copy)]
pub struct Walk {
    pub env: Env,
    pub store: Store,
    pub done: Result<(), Refusal>,
}

// What walks over a sheet and what stands outside it, with the class of each row: the open scopes, which are counters and entries in a lent buffer, the
// innermost last; and what the walk stores, which is counters, eight words for each sheet row, and nodes. The lent buffers are its own fields, not
// those of a struct in it: so a caller that lends them knows what they hold afterwards.
#[derive(Drop)]
pub struct Walker<'s, 'b> {
    pub sheet: &'s [u32],
    pub outside: &'s [u32],
    pub classes: &'s [u32],
    pub env: Env,
    pub entries: &'b mut [u32],
    pub store: Store,
    pub results: &'b mut [u32],
    pub nodes: &'b mut [u32],
}

impl Walker<'_, '_> {
    // A declaration, seen from the innermost function: the index of a capture, if it is a local or argument of another.
    pub fn seen_in(&self, d: OpenDecl) -> Decl
        requires { length self.now.sheet.now ≤ 16384 }
        ensures { (k g : ℕ) → code_and_values result
            ≡ four_words (seen_in self.now.sheet.now (means d) (slot_or k d) (number_or g d) self.now.env.fun.0 (stored_of self.now)) }
    {
        seen_in(self.sheet, d, self.env.fun, self.results, self.nodes)
    }

    // A new field's name, stored in the list of its class.
    pub fn reg_field(&mut self, class: u32, name: u32)
        ensures step { stored_of self.new ≡ add_new (8 * class + 7) (field_node name) (stored_of self.old) }
        ensures scopes { scopes_in self.new ≡ scopes_in self.old }
        ensures same { Same self.old self.new }
    {
        let store = self.store;
        self.store = reg_field(store, self.results, self.nodes, class, name);
    }

    // The innermost function whose scope mark is among the first `n` entries.
    pub fn innermost_function(&self, n: u32) -> Option<FunctionMark>
        ensures marks { function_marks self.now.sheet.now self.now.entries.now n ≡ functions_from self.now.sheet.now self.now.entries.now result }
        ensures before { (m : FunctionMark) → result ≡ Some m → m.at < n }
    {
        innermost_function(self.sheet, self.entries, n)
    }

    // Is the local or argument of row `key` captured by function `fun`?
    pub fn has_captured(&self, fun: u32, key: u32) -> bool
        ensures { result ≡ has_key key (list_at (stored_of self.now) (8 * fun + 6)) }
    {
        has_key(self.nodes, word(self.results, fun, result::CAPTURES), key)
    }

    // A local or argument appended to what function `fun` captures.
    pub fn append_capture(&mut self, fun: u32, x: Node)
        ensures step { stored_of self.new ≡ append_node (8 * fun + 6) (node_of x) (stored_of self.old) }
        ensures scopes { scopes_in self.new ≡ scopes_in self.old }
        ensures same { Same self.old self.new }
    {
        let store = self.store;
        self.store = append_node(store, self.results, self.nodes, fun, result::CAPTURES, x);
    }

    // Is a name declared in the innermost scope?
    pub fn has_local(&self, name: u32) -> bool
        ensures { result ≡ taken_in self.now.entries.now name self.now.env.count }
    {
        has_local(self.entries, name, self.env.count)
    }

    // What a name means here.
    pub fn lookup(&self, name: u32) -> Found
        ensures { (meant result.decl ≡ lookup_meaning (state_of self.now).scopes name)
            × ((d : OpenDecl) → result.decl ≡ Some d → (slot_or (lookup_slot (state_of self.now).scopes name) d ≡ lookup_slot (state_of self.now).scopes name)
            × (number_or (lookup_global (state_of self.now).scopes name) d ≡ lookup_global (state_of self.now).scopes name))
            × (result.distance ≡ lookup_distance self.now.sheet.now (state_of self.now).scopes name) }
    {
        lookup(self.sheet, self.env, self.entries, name)
    }

    // Is there a loop around, inside the innermost function?
    pub fn in_loop(&self) -> bool
        ensures { result ≡ loop_in self.now.sheet.now self.now.entries.now self.now.env.count }
    {
        in_loop(self.sheet, self.entries, self.env.count)
    }

    // The scopes around the innermost one.
    pub fn around(&self) -> Env
        ensures { (s : Sheet) → scopes_of result self.now.entries.now ≡ step_scopes s leave (state_of self.now).scopes }
    {
        pop_scope(self.env, self.entries)
    }
}
