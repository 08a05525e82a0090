//! The pool of a port's labels.

ghost use Rattle.std.specs.Prelude.{◌≡◌, ◌≤◌, nat_eq, length, option_map, false, IsTrue, IfOk, IfErr, IfSome, IfNone};
ghost use Rattle.std.specs.List.{list_any};
ghost use Rattle.net_types.specs.Label.{is_label_number};
ghost use Rattle.branch_desk.specs.port_model.Setup.{is_between};
ghost use Rattle.branch_desk.specs.port_model.Reclaiming.{greater_of, lesser_of};

use crate::between::Between;
use crate::label::{Label, Spare};
use crate::marks::{all_spare, first_open};
use ifmp_adjacency::Established;
use net_types::{Channel, OutOfMemory, label_channel};
use std::alloc::Global;
use std::marker::Model;

/// The free labels of a port (RFC 1953), for one adjacency in Estab. It must be given up by
/// [`LabelPool::abandon`].
#[must_use]
#[derive(Debug)]
pub struct LabelPool {
    key: Established,
    /// The range of the port, by the numbers of its labels.
    least: u16,
    greatest: u16,
    /// The channels whose labels are handed out.
    between: Between,
    /// Whether the label of each number from `least` on is spare.
    marks: Vec<bool>,
    /// How many are spare.
    count: usize,
    /// Below this index no label can be handed out.
    low: usize,
}

impl Model for LabelPool {
    ghost use Rattle.label_pool.specs.Pool.{Pool};

    ghost Value = { Pool };

    ghost use Rattle.label_pool.specs.Marks.{marked, AreMarks};

    ghost view = { λ p. record {
      instance = p.key;
      least = p.least;
      greatest = p.greatest;
      from = p.between.from;
      to = p.between.to;
      spare = marked p.least p.marks.items;
    } };

    ghost invariant = { λ p. AreMarks p.least p.greatest p.between p.marks.items p.count p.low };
}

impl LabelPool {
    ghost use Rattle.label_pool.specs.Pool.{IsOf, opened, lowest, taken, given_back};

    /// A pool with all labels from `least` to `greatest`, by their numbers, for an adjacency that
    /// entered Estab. Where memory is wanting, what shows that is given back.
    pub fn open(
        alloc: Global,
        key: Established,
        least: u16,
        greatest: u16,
    ) -> Result<LabelPool, (Established, OutOfMemory)>
        requires least { IsTrue (is_label_number least) }
        requires greatest { IsTrue (is_label_number greatest) }
        ensures ok { IfOk result (λ pool. pool ≡ opened key least greatest) }
        ensures err { IfErr result (λ (given_back, _). given_back ≡ key) }
    {
        match all_spare(alloc, least, greatest) {
            Ok((marks, count)) => Ok(LabelPool {
                key,
                least,
                greatest,
                between: Between {
                    from: label_channel(least),
                    to: label_channel(greatest),
                },
                marks,
                count,
                low: 0,
            }),
            Err(error) => Err((key, error)),
        }
    }

    /// Takes the lowest spare label between the two channels. None exactly where there is none.
    pub fn take(&mut self) -> Option<Label<Spare>>
        ensures lowest { option_map (λ label. label.number) result ≡ lowest self.old }
        ensures label { IfSome result (IsOf self.new) }
        ensures taken { IfSome result (λ label. self.new ≡ taken self.old label.number) }
        ensures absent { IfSome result (λ label. list_any (nat_eq label.number) self.new.spare ≡ false) }
        ensures none { IfNone result (self.new ≡ self.old) }
    {
        self.low = first_open(&self.marks, self.least, &self.between, self.low);
        if self.low == self.marks.len() {
            return None;
        }
        let number = self.least + self.low as u16;
        self.marks[self.low] = false;
        self.count -= 1;
        self.low += 1;
        Some(Label::new(self.key.instance(), number))
    }

    /// Puts a label of this pool back, which isn't there: it is spare again.
    pub fn put(&mut self, label: Label<Spare>)
        requires own { IsOf self.old label }
        requires absent { list_any (nat_eq label.number) self.old.spare ≡ false }
        ensures { self.new ≡ given_back self.old label.number }
    {
        let place = (label.number() - self.least) as usize;
        label.abandon();
        self.marks[place] = true;
        self.count += 1;
        if place < self.low {
            self.low = place;
        }
    }

    /// From now on only labels that also lie between these two channels are handed out, by VPI and
    /// then VCI. Where the first is the greater one, none is.
    pub fn narrow(&mut self, from: Channel, to: Channel)
        ensures { self.new ≡ record self.old { from = greater_of self.old.from from; to = lesser_of self.old.to to } }
    {
        self.between.narrow(from, to);
    }

    /// Whether the channel lies between the two to which the pool was narrowed.
    pub fn is_within(&self, channel: Channel) -> bool
        ensures { result ≡ is_between self.now.from self.now.to channel }
    {
        self.between.contains(channel)
    }

    /// How many labels are spare, also those that aren't handed out any more.
    pub fn spare(&self) -> usize
        ensures { result ≡ length self.now.spare }
    {
        self.count
    }

    /// The least and the greatest of the channels to which the pool was narrowed. The least may be above
    /// the greatest.
    pub fn narrowed(&self) -> (Channel, Channel)
        ensures from { result.0 ≡ self.now.from }
        ensures to { result.1 ≡ self.now.to }
    {
        (self.between.from, self.between.to)
    }

    /// Gives the pool up.
    pub fn abandon(self) {
        let LabelPool {
            key,
            least: _,
            greatest: _,
            between: _,
            marks: _,
            count: _,
            low: _,
        } = self;
        key.spend();
    }
}
