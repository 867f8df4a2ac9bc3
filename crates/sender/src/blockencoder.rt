// The packets of one transfer, blocks interleaved over a window (src/sender/blockencoder.rs).
ghost use Rattle.std.specs.Prelude.{◌≡◌, true, false, ◌<◌, ◌≤◌};
ghost use Rattle.sizes.specs.Limits.{largest_block};
ghost use Rattle.sender.specs.EncoderCalls.{ValidEncoder, Inside, Reads, is_empty, open_at, new_of, has_room, one_opened, filled_of, place_to_visit, stuck, without_of, ready_of, offset_of, symbol_payload, last_of, closes_of, shown_of, visit_of, midway, glance_of, moved_of, emptied_of};

use crate::block::{Open, nb_source_symbols, no_open};
use lifecycle::parts::Part;
use sizes::gap::close_gap;
use sizes::limits::LARGEST_WINDOW;
use sizes::numbers::{Esi, Sbn};
use sizes::partition::{Partition, Sizes, block_partitioning};

// What is sent: its part of the store, and how it is cut.
#[repr(C)]
#[derive(Clone, Copy)]
pub struct Content {
    pub part: Part,
    pub sizes: Sizes,
    pub partition: Partition,
}

// One transfer under way. The open blocks are the first `filled` of the window; `index` is the place to visit next.
#[repr(C)]
#[derive(Clone, Copy)]
pub struct BlockEncoder {
    pub content: Content,
    pub width: usize,
    pub closable: bool,
    pub begun: bool,
    pub stopped: bool,
    pub next: Sbn,
    pub filled: usize,
    pub index: usize,
    pub window: [Open; LARGEST_WINDOW],
}

// What a packet says of its symbol; the payload is a part of the store.
#[repr(C)]
#[derive(Clone, Copy)]
pub struct Symbol {
    pub sbn: Sbn,
    pub esi: Esi,
    pub symbols: u64,
    pub payload: Part,
    pub transfer_length: u64,
    pub close: bool,
}

// The block that is read stands at `place`.
#[repr(C)]
#[derive(Clone, Copy)]
pub struct Visit {
    pub place: usize,
    pub symbol: Symbol,
}

impl BlockEncoder {
    // A transfer before its first packet.
    #[tactic(auto, unfolding(crate::specs::EncoderCalls::new_of))]
    pub fn new(part: Part, sizes: Sizes, width: usize, closable: bool) -> BlockEncoder
        ensures { result ≡ new_of part sizes width closable }
    {
        let partition = block_partitioning(sizes.b, part.size, sizes.e);
        BlockEncoder {
            content: Content {
                part,
                sizes,
                partition,
            },
            width,
            closable,
            begun: false,
            stopped: false,
            next: Sbn(0),
            filled: 0,
            index: 0,
            window: [no_open(); LARGEST_WINDOW],
        }
    }

    // Is there a block to open, and room for it?
    #[tactic(auto, unfolding(crate::specs::EncoderCalls::has_room))]
    fn has_room(&self) -> bool
        ensures { result ≡ has_room self.now }
    {
        self.filled < self.width && (self.next.0 as u64) < self.content.partition.blocks
    }

    // The next block is opened, at the window's end.
    #[tactic(auto, using(crate::proofs::EncoderLaws::room_told, crate::proofs::Offsets::told), unfolding(crate::specs::EncoderCalls::one_opened))]
    fn read_block(&mut self)
        requires { ValidEncoder self.old × (has_room self.old ≡ true) }
        ensures { self.new ≡ one_opened self.old }
    {
        self.window[self.filled] = Open {
            sbn: self.next,
            esi: Esi(0),
        };
        self.next = Sbn(self.next.0 + 1);
        self.filled += 1;
    }

    // The window is filled.
    #[tactic(auto, using(crate::proofs::EncoderLaws::filling))]
    fn read_window(&mut self)
        requires { ValidEncoder self.old }
        ensures { self.new ≡ filled_of self.old }
    {
        while self.has_room() {
            self.read_block();
        }
    }

    // The place to visit: an index past the end becomes 0.
    #[tactic(auto, unfolding(crate::specs::EncoderCalls::place_to_visit))]
    fn place(&self) -> usize
        ensures { result ≡ place_to_visit self.now }
    {
        if self.index < self.filled {
            self.index
        } else {
            0
        }
    }

    // Has the block to visit no symbol left?
    #[tactic(auto, using(crate::proofs::EncoderLaws::place_low), unfolding(crate::specs::EncoderCalls::stuck))]
    fn is_stuck(&self) -> bool
        requires { ValidEncoder self.now }
        ensures { result ≡ stuck self.now }
    {
        0 < self.filled && self.window[self.place()].is_empty(self.content.partition)
    }

    // The block to visit leaves, and the index stays.
    #[tactic(auto, using(crate::proofs::EncoderLaws::place_low), unfolding(crate::specs::EncoderCalls::without_of))]
    fn remove(&mut self)
        requires { ValidEncoder self.old × (0 < self.old.filled) }
        ensures { self.new ≡ without_of self.old }
    {
        self.index = self.place();
        close_gap(&mut self.window, self.index, no_open());
        self.filled -= 1;
    }

    // The window is filled, and no drained block stands at the place to visit.
    #[tactic(auto, using(crate::proofs::EncoderCounts::draining), unfolding(crate::specs::EncoderCalls::ready_of))]
    fn make_ready(&mut self)
        requires { ValidEncoder self.old }
        ensures { self.new ≡ ready_of self.old }
    {
        self.read_window();
        while self.is_stuck() {
            self.remove();
            self.read_window();
        }
    }

    // Where a symbol begins in what is sent, in bytes.
    #[tactic(auto, using(crate::proofs::Offsets::offsets), unfolding(crate::specs::EncoderCalls::offset_of))]
    fn offset(&self, o: Open) -> u64
        requires { ValidEncoder self.now × Inside self.now.content o × (is_empty self.now.content.partition o ≡ false) }
        ensures { result ≡ offset_of self.now.content o }
    {
        let p = self.content.partition;
        let k = o.sbn.0 as u64;
        let n = o.esi.0 as u64;
        let e = self.content.sizes.e;
        if k < p.nb_a_large {
            return (k * p.large + n) * e;
        }
        (p.nb_a_large * p.large + (k - p.nb_a_large) * p.small + n) * e
    }

    // Does nothing remain once the block at `at` is as `o` says?
    #[tactic(auto, unfolding(crate::specs::EncoderCalls::last_of))]
    fn is_last(&self, at: usize, o: Open) -> bool
        requires { ValidEncoder self.now × (at < self.now.filled) }
        ensures { result ≡ last_of self.now at o }
    {
        let p = self.content.partition;
        if (self.next.0 as u64) < p.blocks {
            return false;
        }
        let mut window = self.window;
        window[at] = o;
        window[..self.filled].iter().all(|b| b.is_empty(p))
    }

    // Where a symbol's bytes stand in the store; the last one may be short.
    #[tactic(auto, using(crate::proofs::Offsets::offset_inside))]
    fn payload(&self, o: Open) -> Part
        requires { ValidEncoder self.now × Inside self.now.content o × (is_empty self.now.content.partition o ≡ false) }
        ensures { result ≡ symbol_payload self.now.content o }
    {
        let from = self.offset(o);
        let part = self.content.part;
        Part {
            start: part.start + from,
            size: self.content.sizes.e.min(part.size - from),
        }
    }

    // Does a symbol of the block at `at` close the transfer? Forced, or it is the last of a transfer that closes.
    fn closes(&self, at: usize, o: Open, force: bool) -> bool
        requires { ValidEncoder self.now × (at < self.now.filled) × (o.esi.0 ≤ largest_block) }
        ensures { result ≡ closes_of force self.now at o }
    {
        let after = Open {
            sbn: o.sbn,
            esi: Esi(o.esi.0 + 1),
        };
        force || self.closable && self.is_last(at, after)
    }

    // What the block o at a place gives.
    fn shown(&self, place: usize, o: Open, close: bool) -> Visit
        requires { ValidEncoder self.now × Inside self.now.content o × (is_empty self.now.content.partition o ≡ false) }
        ensures { result ≡ shown_of self.now.content place o close }
    {
        Visit {
            place,
            symbol: Symbol {
                sbn: o.sbn,
                esi: o.esi,
                symbols: nb_source_symbols(self.content.partition, o.sbn),
                payload: self.payload(o),
                transfer_length: self.content.part.size,
                close,
            },
        }
    }

    // The symbol that the block to visit gives.
    #[tactic(auto, using(crate::proofs::EncoderReads::visiting), unfolding(crate::specs::EncoderCalls::visit_of))]
    fn visit(&self, force: bool) -> Visit
        requires { ValidEncoder self.now × (0 < self.now.filled) × (stuck self.now ≡ false) }
        ensures { result ≡ visit_of force self.now }
    {
        let place = self.place();
        let o = self.window[place];
        self.shown(place, o, self.closes(place, o, force))
    }

    // With o the block to visit: is the transfer under way, no block to be opened or removed, and more to send after its next symbol?
    #[tactic(auto, using(crate::proofs::EncoderViews::visited_stuck), unfolding(crate::specs::EncoderCalls::midway))]
    fn is_midway(&self, o: Open) -> bool
        requires { o ≡ open_at self.now (place_to_visit self.now) }
        ensures { result ≡ midway self.now }
    {
        if self.stopped || !self.begun || self.has_room() || self.filled == 0 {
            return false;
        }
        let p = self.content.partition;
        if o.is_empty(p) {
            return false;
        }
        (self.next.0 as u64) < p.blocks || (o.esi.0 as u64) + 1 < nb_source_symbols(p, o.sbn)
    }

    // The next symbol, where reading it only moves its block and the index on: no block is to be opened or removed, and it does not end the transfer.
    #[tactic(auto, using(crate::proofs::EncoderReads::visiting), unfolding(crate::specs::EncoderCalls::glance_of))]
    pub fn glance(&self) -> Option<Visit>
        requires { ValidEncoder self.now }
        ensures { result ≡ glance_of self.now }
    {
        let place = self.place();
        let o = self.window[place];
        if self.is_midway(o) {
            return Some(self.shown(place, o, false));
        }
        None
    }

    // A symbol was read: its block is one symbol further, and the index moves on.
    #[tactic(auto, unfolding(crate::specs::EncoderCalls::moved_of))]
    fn move_on(&mut self, v: Visit)
        requires { ValidEncoder self.old × (v.place < self.old.filled) × (v.symbol.esi.0 < largest_block) }
        ensures { self.new ≡ moved_of self.old v }
    {
        self.window[v.place] = Open {
            sbn: v.symbol.sbn,
            esi: Esi(v.symbol.esi.0 + 1),
        };
        self.index = v.place + 1;
        self.begun = true;
    }

    // With no block open: an empty object has one packet, which closes; all else has been sent.
    #[tactic(auto, unfolding(crate::specs::EncoderCalls::emptied_of))]
    fn read_empty(&mut self) -> Option<Symbol>
        ensures { emptied_of self.old ≡ record { answer = result; encoder = self.new } }
    {
        if self.begun || self.content.part.size != 0 {
            return None;
        }
        self.begun = true;
        Some(Symbol {
            sbn: Sbn(0),
            esi: Esi(0),
            symbols: 0,
            payload: Part {
                start: self.content.part.start,
                size: 0,
            },
            transfer_length: 0,
            close: true,
        })
    }

    // The next symbol of the transfer, or none. A forced read is the last one, and closes.
    #[tactic(auto, using(crate::proofs::EncoderReads::reading))]
    pub fn read(&mut self, force: bool) -> Option<Symbol>
        requires { ValidEncoder self.old }
        ensures { Reads force self.old (record { answer = result; encoder = self.new }) }
    {
        if self.stopped {
            return None;
        }
        self.stopped = force;
        self.make_ready();
        if self.filled == 0 {
            return self.read_empty();
        }
        let v = self.visit(force);
        self.move_on(v);
        Some(v.symbol)
    }
}
