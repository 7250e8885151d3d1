// One shared word read, and one written.
ghost use Rattle.std.specs.Prelude.{◌≡◌, true, false, length, is_some, IfSome, MatchOption, if◌then◌else◌};
ghost use Rattle.model.specs.Entries.{nth};
ghost use Rattle.model.specs.State.{set_inbox, set_tray};
ghost use Rattle.model.specs.Steps.{between, loaded, written, data_written};
ghost use Rattle.cells.specs.Ready.{stands};
ghost use Rattle.cells.specs.View.{view_of, words_of, parties_of, nodes_of, Becomes, BecomesIfParty};

use crate::records::{Cells, NodeWords};
use model::entries::entry_at;
use model::nodes::Node;
use model::tray::Tray;
use model::words::{Address, Word};
use orders::limits::Party;

impl<D: Copy> Cells<D> {
    // The node's words, if there is such a node.
    pub fn words(&self, n: Node) -> Option<&NodeWords>
        ensures { MatchOption result (between 1 (nodes_of self.now) n ≡ false) (λ x. (between 1 (nodes_of self.now) n ≡ true) × (x.now ≡ words_of self.now n)) }
    {
        entry_at(&self.nodes, n)
    }

    // The word at the address, if one stands there.
    pub(crate) fn load(&self, data: &[D], address: Address) -> Option<Word<D>>
        ensures stands { is_some result ≡ stands (parties_of self.now) (nodes_of self.now) (length «data».now) address }
        ensures value { (d : D) → IfSome result (λ w. w ≡ loaded (view_of self.now) (nth d «data».now) address) }
    {
        Some(match address {
            Address::Nowhere => Word::NoWord,
            Address::CountOf(n) => Word::CountWord(self.words(n)?.count),
            Address::LockOf(n) => Word::LockWord(self.words(n)?.lock),
            Address::KidOf(n, k) => Word::KidWord(self.words(n)?.kids.at(k)),
            Address::DataOf(n) => Word::DataWord(*entry_at(data, n)?),
            Address::InboxOf(q) => Word::InboxWord(self.record(q)?.inbox),
            Address::TrayOf(q) => Word::TrayWord(self.record(q)?.tray),
        })
    }

    fn set_inbox(&mut self, q: Party, v: Node)
        ensures { BecomesIfParty self.old self.new q (λ s. set_inbox s q v) }
    {
        if let Some(record) = self.table.lend(q) {
            record.inbox = v;
        }
    }

    fn set_tray(&mut self, q: Party, v: Tray)
        ensures { BecomesIfParty self.old self.new q (λ s. set_tray s q v) }
    {
        if let Some(record) = self.table.lend(q) {
            record.tray = v;
        }
    }

    // The word is written where a word of its sort stands.
    pub(crate) fn put(&mut self, data: &mut [D], address: Address, word: Word<D>)
        requires { stands (parties_of self.old) (nodes_of self.old) (length «data».old) address ≡ true }
        ensures becomes { Becomes self.old self.new (written (view_of self.old) address word) }
        ensures entries { (d : D) → nth d «data».new ≡ data_written (nth d «data».old) address word }
    {
        match address {
            Address::Nowhere => {}
            Address::CountOf(n) => {
                if let Word::CountWord(v) = word {
                    self.nodes[(n - 1) as usize].count = v;
                }
            }
            Address::LockOf(n) => {
                if let Word::LockWord(v) = word {
                    self.nodes[(n - 1) as usize].lock = v;
                }
            }
            Address::KidOf(n, k) => {
                if let Word::KidWord(v) = word {
                    self.nodes[(n - 1) as usize].kids.put(k, v);
                }
            }
            Address::DataOf(n) => {
                if let Word::DataWord(v) = word {
                    data[(n - 1) as usize] = v;
                }
            }
            Address::InboxOf(q) => {
                if let Word::InboxWord(v) = word {
                    self.set_inbox(q, v);
                }
            }
            Address::TrayOf(q) => {
                if let Word::TrayWord(v) = word {
                    self.set_tray(q, v);
                }
            }
        }
    }
}
