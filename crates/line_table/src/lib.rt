// Lines for values under keys: a key may stand in one line alone, so that one look tells what is held under it.
#![tactic(auto)]

ghost use Rattle.std.specs.Prelude.{◌≡◌, ◌%◌, ◌<◌, List, replicate, slice_index_or, slice_set, Some, None, Option};
ghost use Rattle.line_table.specs.declared.Line.{Line};
ghost use Rattle.std.specs.Option.{SomeIff};
ghost use Rattle.line_table.specs.Held.{Fewer, SameBut, LosesOne, with_one, without_one, nothing};
ghost use Rattle.line_table.specs.Lines.{emptied, held};
ghost use Rattle.line_table.specs.Placed.{Placed};

pub mod key;

use key::Key;
use std::marker::Model;

#[derive(Clone, Copy)]
struct Line<K, V> {
    key: K,
    value: V,
}

// A line, lent to be set.
fn fill<K: Copy, V: Copy>(line: &mut Option<Line<K, V>>, key: K, value: V)
    ensures { line.new ≡ Some (record { key = key; value = value }) }
{
    *line = Some(Line { key, value });
}

// A line, lent to be cleared if it is the key's.
fn empty<K: Key, V: Copy>(line: &mut Option<Line<K, V>>, key: K)
    ensures { line.new ≡ emptied K.eq line.old key }
{
    if line.is_some_and(|held| held.key == key) {
        *line = None;
    }
}

#[derive(Drop)]
pub struct Lines<K: Key, V: Copy, const N: usize> {
    lines: [Option<Line<K, V>>; N],
}

// Clauses see the lines, each with a key that may stand there.
impl<K: Key, V: Copy, const N: usize> Model for Lines<K, V, N> {
    ghost Value = { List (Option (Line K V)) };

    ghost view = { λ a. a.lines };

    ghost invariant = { λ a. Placed K.fold N a.lines };
}

impl<K: Key, V: Copy, const N: usize> Lines<K, V, N> {
    pub fn new() -> Lines<K, V, N>
        ensures lines { result ≡ replicate N None }
        ensures held { Fewer (held K.eq K.fold N result) nothing }
    {
        Lines { lines: [None; N] }
    }

    // Which line a key may stand in, where there is any.
    fn line_of(key: K) -> Option<usize>
        ensures { SomeIff result (0 < N) (K.fold key % N) }
    {
        key.fold().checked_rem(N)
    }

    pub fn find(&self, key: K) -> Option<V>
        ensures { result ≡ held K.eq K.fold N self.now key }
    {
        let line = *self.lines.get(Self::line_of(key)?)?;
        line.filter(|held| held.key == key).map(|held| held.value)
    }

    // What is put is held, where there are lines, and at most one other key is lost for it.
    pub fn put(&mut self, key: K, value: V)
        ensures lines { self.new ≡ slice_set self.old (K.fold key % N) (Some (record { key = key; value = value })) }
        ensures retained { 0 < N → held K.eq K.fold N self.new key ≡ Some value }
        ensures loses { LosesOne key (held K.eq K.fold N self.new) (held K.eq K.fold N self.old) }
        ensures held { Fewer (held K.eq K.fold N self.new) (with_one K.eq (held K.eq K.fold N self.old) key value) }
    {
        if let Some(i) = Self::line_of(key) {
            fill(&mut self.lines[i], key, value);
        }
    }

    // The key is gone, and no other is lost.
    pub fn remove(&mut self, key: K)
        ensures lines { let i = K.fold key % N in self.new ≡ slice_set self.old i (emptied K.eq (slice_index_or self.old i None) key) }
        ensures gone { held K.eq K.fold N self.new key ≡ None }
        ensures others { SameBut key (held K.eq K.fold N self.new) (held K.eq K.fold N self.old) }
        ensures held { Fewer (held K.eq K.fold N self.new) (without_one K.eq (held K.eq K.fold N self.old) key) }
    {
        if let Some(i) = Self::line_of(key) {
            empty(&mut self.lines[i], key);
        }
    }

    pub fn clear(&mut self)
        ensures lines { self.new ≡ replicate N None }
        ensures held { Fewer (held K.eq K.fold N self.new) nothing }
    {
        *self = Lines::new();
    }
}
