ghost use Rattle.std.specs.Prelude.{◌≡◌, ◌↔◌, ◌<◌, ◌+◌, false, drop, None, IsTrue, IsOk, IfOk, IfErr, length, slice_get};
ghost use Rattle.std.specs.Cmp.Lexicographic.{pointwise, lists_per, lists_equiv};
ghost use Rattle.mcs_script.specs.contracts.item.ItemPartialEq.TheImpl.Laws.{laws-law as item_partial_laws};
ghost use Rattle.mcs_script.specs.contracts.item.ItemEq.TheImpl.Laws.{laws-law as item_laws};
ghost use Rattle.mcs_script.specs.Script.{IsScript, badges_of, is_bare, IsFirstBare, is_left_open, IsFirstOpen, ends_handler, listens, heard, cost_at, first_taken, next_item, or_again};

use crate::Item;
use mcs_ticks::Limits;
use std::marker::Model;

/// The items that a thread runs in each of its rounds: 1 to 1,024 of them. Contracts see the list.
///
/// - A wait is neither last nor directly before a handler, except as the first of several items.
/// - An `Enter` is neither last nor directly before a handler.
/// - If there is a handler, the first item is a wait.
#[derive(Debug, Drop)]
pub struct Script {
    items: Vec<Item>,
    /// the badges of all handlers
    badges: u32,
}

impl Model for Script {
    ghost use Rattle.std.specs.Prelude.{List};
    ghost use Rattle.mcs_script.specs.declared.item.Item.{Item};

    ghost Value = { List Item };

    ghost use Rattle.std.specs.Prelude.{◌≡◌};
    ghost use Rattle.mcs_script.specs.Script.{IsScript, badges_of};

    ghost view = { λ a. a.items.items };

    ghost invariant = { λ a. IsScript a.items.items × (a.badges ≡ badges_of a.items.items) };
}

impl PartialEq for Script {
    ghost eq = { pointwise ⟦<Item as PartialEq>⟧.eq };

    ghost laws = { lists_per item_partial_laws };

    fn eq(&self, other: &Script) -> bool
        ensures eq { result ≡ pointwise ⟦<Item as PartialEq>⟧.eq self.now other.now }
        ensures same { IsTrue result ↔ (self.now ≡ other.now) }
    {
        self.items == other.items
    }
}

impl Eq for Script {
    ghost laws = { lists_equiv item_laws };
}

impl Script {
    /// Returns the script of these items. The list is handed back if a condition of [`Script`]
    /// fails.
    pub fn new(items: Vec<Item>) -> Result<Self, Vec<Item>>
        ensures accepted { IsOk result ↔ IsScript items.items }
        ensures same { IfOk result (λ script. script ≡ items.items) }
        ensures handed_back { IfErr result (λ back. back ≡ items) }
    {
        if is_script(&items) {
            let badges = badges_of(&items);
            Ok(Script { items, badges })
        } else {
            Err(items)
        }
    }

    /// Returns the number of the first wait that is last or directly before a handler, other than
    /// the first of several items.
    pub fn bare_wait(items: &[Item]) -> Option<usize>
        ensures { IsFirstBare items.now result }
    {
        let first = if 2 <= items.len() { 1 } else { 0 };
        for i in first..items.len() {
            if is_bare(items, i) {
                return Some(i);
            }
        }
        None
    }

    /// Whether the first item is a wait, or there is no handler.
    pub fn listens(items: &[Item]) -> bool
        ensures { result ≡ listens items.now }
    {
        matches!(items.first(), Some(Item::Wait(_))) || badges_of(items) == 0
    }

    /// Returns the number of items, 1 to 1,024.
    pub fn len(&self) -> usize
        ensures count { result ≡ length self.now }
        ensures is_script { IsScript self.now }
    {
        self.items.len()
    }

    /// Returns the item with this number, from 0, or `None` past the last.
    pub fn get(&self, item: usize) -> Option<Item>
        ensures { result ≡ slice_get self.now item }
    {
        self.items.get(item).copied()
    }

    /// Returns the ticks that the item with this number costs, or 0 past the last.
    #[inline(always)]
    pub(crate) fn cost_at(&self, call: u64, item: usize) -> u64
        ensures { result ≡ cost_at call (slice_get self.now item) }
    {
        match self.items.get(item) {
            Some(item) => item.cost(call),
            None => 0,
        }
    }

    /// Returns the items.
    pub fn as_slice(&self) -> &[Item]
        ensures same { result.now ≡ self.now }
        ensures is_script { IsScript self.now }
    {
        self.items.as_slice()
    }

    /// Returns the badges of a word that a handler takes.
    pub(crate) fn heard(&self, word: u32) -> u32
        ensures { result ≡ heard self.now word }
    {
        word & self.badges
    }

    /// Returns the number of the next item that the thread runs after this one, if a word with
    /// these badges began the round. If there is no such item, a wait is returned again, and any
    /// other item gives `None`: the round ends.
    #[inline(always)]
    pub(crate) fn next(&self, item: usize, word: u32) -> Option<usize>
        requires { item < length self.now }
        ensures { result ≡ next_item self.now word item }
    {
        let _count = self.len();
        let after = item + 1;
        match self.items.get(after) {
            Some(next) if next.is_on() => self.next_taken(item, word),
            Some(_) => Some(after),
            None => self.again(item),
        }
    }

    /// Returns the number of the next item as `next` does, in a script with handlers.
    #[inline(never)]
    fn next_taken(&self, item: usize, word: u32) -> Option<usize>
        requires { item < length self.now }
        ensures { result ≡ next_item self.now word item }
    {
        let _count = self.len();
        let next = first_taken(&self.items, item + 1, word);
        if next.is_some() {
            return next;
        }
        self.again(item)
    }

    /// Returns the number of this item if it is a wait.
    #[inline(always)]
    fn again(&self, item: usize) -> Option<usize>
        requires { item < length self.now }
        ensures { result ≡ or_again item (slice_get self.now item) None }
    {
        match self.items[item] {
            Item::Wait(_) => Some(item),
            _ => None,
        }
    }
}

fn is_script(items: &[Item]) -> bool
    ensures { IsTrue result ↔ IsScript items.now }
{
    1 <= items.len()
        && items.len() <= Limits::ITEMS
        && Script::bare_wait(items).is_none()
        && left_open(items).is_none()
        && Script::listens(items)
}

/// Returns the number of the first `Enter` that is last or directly before a handler.
fn left_open(items: &[Item]) -> Option<usize>
    ensures { IsFirstOpen items.now result }
{
    for i in 0..items.len() {
        if is_left_open(items, i) {
            return Some(i);
        }
    }
    None
}

/// Returns the number of the first item from `from` on that a thread runs. The items before the
/// first handler are not skipped.
fn first_taken(items: &[Item], from: usize, word: u32) -> Option<usize>
    ensures { result ≡ first_taken word from false (drop from items.now) }
{
    let mut passes = false;
    for i in from..items.len() {
        let item = items[i];
        let begins = item.is_on();
        if !passes && !begins {
            return Some(i);
        }
        passes = item.passes_after(word, passes);
    }
    None
}

fn badges_of(items: &[Item]) -> u32
    ensures { result ≡ badges_of items.now }
{
    items.iter().fold(0, |badges, item| badges | item.badges())
}

/// Whether the item with this number is an `Enter` that is last or directly before a handler.
fn is_left_open(items: &[Item], k: usize) -> bool
    requires { k < length items.now }
    ensures { result ≡ is_left_open items.now k }
{
    matches!(items[k], Item::Enter(..)) && ends_handler(items, k + 1)
}

/// Whether the item with this number is a wait that is last or directly before a handler.
fn is_bare(items: &[Item], k: usize) -> bool
    requires { k < length items.now }
    ensures { result ≡ is_bare items.now k }
{
    matches!(items[k], Item::Wait(_)) && ends_handler(items, k + 1)
}

/// Whether a handler begins at this number, or the script ends before it.
fn ends_handler(items: &[Item], k: usize) -> bool
    ensures { result ≡ ends_handler (slice_get items.now k) }
{
    match items.get(k) {
        Some(item) => item.is_on(),
        None => true,
    }
}
