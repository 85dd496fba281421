// Nodes of four words in a lent buffer: the node before it in its list, a key, two values. A list is told by its last node, and is
// walked from there back.
ghost use Rattle.std.specs.Prelude.{◌≡◌, List, [], ◌∷◌, ◌&&◌, ℕ, ◌+◌, ◌*◌, ◌<◌, length, eqb, Some};
ghost use Rattle.definition.specs.Basics.{place};
ghost use Rattle.definition.specs.Sheet.{is};
ghost use Rattle.machine.specs.Machine.{entry_word, node_word, previous, chain_to, has_key, function_marks, append_node, append_call, add_new, field_node};
ghost use Rattle.store.specs.Stored.{store_of, node_of, used_pushed, nodes_pushed, functions_from};

use crate::{node, result};
use ast::kind::Kind;
use symbols::env::entry_word;
use symbols::{entry, tag};
use words::{is_kind, put, word};

// The counters: nodes in use, and the last node of the constructor calls.
#[derive(Clone, Copy)]
pub struct Store {
    pub used: u32,
    pub calls: u32,
}

// The key and the two values of a node.
#[derive(Clone, Copy)]
pub struct Node {
    pub key: u32,
    pub one: u32,
    pub two: u32,
}

// Word `c` of node `i`. A word past the end of the buffer reads as 0.
pub fn node_word(nodes: &[u32], i: u32, c: u32) -> u32
    ensures { result ≡ node_word nodes.now i c }
{
    let at = 4 * (i as usize) + (c as usize);
    if at < nodes.len() { nodes[at] } else { 0 }
}

// One more than the place of the node before node `i` in its list, or 0.
pub fn node_before(nodes: &[u32], i: u32) -> u32
    ensures { result ≡ previous nodes.now i }
{
    let before = node_word(nodes, i, node::BEFORE);
    if before < i { before } else { i }
}

// Is there a node with key `k` in the list whose last node is node `p - 1`?
pub fn has_key(nodes: &[u32], p: u32, k: u32) -> bool
    ensures { result ≡ has_key k (chain_to nodes.now p) }
{
    let mut i = p;
    while 0 < i {
        i -= 1;
        if node_word(nodes, i, node::KEY) == k {
            return true;
        }
        i = node_before(nodes, i);
    }
    false
}

// The index of the first node with key `k` in that list. Counted from the last node back: 0 at the key, else one more.
pub fn index_of(nodes: &[u32], p: u32, k: u32) -> u32
    ensures { result ≡ place (λ y. eqb k y.key) (chain_to nodes.now p) }
{
    let mut i = p;
    let mut n = 0;
    while 0 < i {
        i -= 1;
        let key = node_word(nodes, i, node::KEY);
        i = node_before(nodes, i);
        if k == key {
            n = 0;
        } else {
            n += 1;
        }
    }
    n
}

// The number of nodes in that list.
pub fn count_nodes(nodes: &[u32], p: u32) -> u32
    ensures { result ≡ length (chain_to nodes.now p) }
{
    let mut i = p;
    let mut n = 0;
    while 0 < i {
        i -= 1;
        i = node_before(nodes, i);
        n += 1;
    }
    n
}

// One node more after `used` nodes, if there is room; the number of nodes then.
fn push_node(nodes: &mut [u32], used: u32, before: u32, n: Node) -> u32
    ensures { (result ≡ used_pushed nodes.old used)
        × (nodes.new ≡ nodes_pushed nodes.old used (before ∷ n.key ∷ n.one ∷ n.two ∷ [])) }
{
    let i = used as usize;
    if i < nodes.len() / 4 {
        if used < 4294967295 {
            nodes[4 * i] = before;
            nodes[4 * i + 1] = n.key;
            nodes[4 * i + 2] = n.one;
            nodes[4 * i + 3] = n.two;
            return used + 1;
        }
    }
    used
}

// A node appended to the list of word `c` of `row`, if there is room.
pub fn append_node(
    store: Store,
    results: &mut [u32],
    nodes: &mut [u32],
    row: u32,
    c: u32,
    n: Node,
) -> Store
    ensures { store_of result results.new nodes.new
        ≡ append_node (8 * row + c) (node_of n) (store_of store results.old nodes.old) }
{
    let last = word(results, row, c);
    let used = push_node(nodes, store.used, last, n);
    if used == store.used {
        return store;
    }
    put(results, row, c, used);
    Store { used, ..store }
}

// A constructor call appended, if there is room.
pub fn append_call(store: Store, nodes: &mut [u32], n: Node) -> Store
    ensures { (results : List ℕ) → store_of result results nodes.new
        ≡ append_call (node_of n) (store_of store results nodes.old) }
{
    let used = push_node(nodes, store.used, store.calls, n);
    if used == store.used {
        return store;
    }
    Store { used, calls: used }
}

// A node appended to the list of word `c` of `row`, unless its key is in that list.
fn add_new(store: Store, results: &mut [u32], nodes: &mut [u32], row: u32, c: u32, n: Node) -> Store
    ensures { store_of result results.new nodes.new
        ≡ add_new (8 * row + c) (node_of n) (store_of store results.old nodes.old) }
{
    let last = word(results, row, c);
    if has_key(nodes, last, n.key) {
        return store;
    }
    append_node(store, results, nodes, row, c, n)
}

// Is entry `i` the scope mark of a function?
fn marks_function(sheet: &[u32], entries: &[u32], i: u32) -> bool
    ensures { result ≡ (eqb (entry_word entries.now i 0) 1 && is sheet.now 6 (entry_word entries.now i 1)) }
{
    entry_word(entries, i, entry::TAG) == tag::SCOPE
        && is_kind(sheet, entry_word(entries, i, entry::NAME), Kind::Function)
}

// Where the scope of a function opens: the place of its mark, and the function.
#[derive(Clone, Copy)]
pub struct FunctionMark {
    pub at: u32,
    pub fun: u32,
}

// The innermost function whose scope mark is among the first `n` entries.
pub fn innermost_function(sheet: &[u32], entries: &[u32], n: u32) -> Option<FunctionMark>
    ensures marks { function_marks sheet.now entries.now n ≡ functions_from sheet.now entries.now result }
    ensures before { (m : FunctionMark) → result ≡ Some m → m.at < n }
{
    for at in (0..n).rev() {
        if marks_function(sheet, entries, at) {
            return Some(FunctionMark {
                at,
                fun: entry_word(entries, at, entry::NAME),
            });
        }
    }
    None
}

// A new field's name, stored in the list of its class.
pub fn reg_field(
    store: Store,
    results: &mut [u32],
    nodes: &mut [u32],
    class: u32,
    name: u32,
) -> Store
    ensures { store_of result results.new nodes.new
        ≡ add_new (8 * class + 7) (field_node name) (store_of store results.old nodes.old) }
{
    let field = Node {
        key: name,
        one: 0,
        two: 0,
    };
    add_new(store, results, nodes, class, result::FIELDS, field)
}
