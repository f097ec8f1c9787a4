// The delivery of a message.
ghost use Rattle.std.specs.Prelude.{◌≡◌, ◌<◌, length, IfOk, OnErr};
ghost use Rattle.tam_world.specs.Worlds.{World as WorldRecord, delivered};
ghost use Rattle.tam_world.specs.Effects.{delivery_in, ChangesCells, LeavesWorld, GoesWell, cells_wished, begun_by, activations_wished};

use crate::{Effect, NodeAt, OUTSIDE, World};
use std::alloc::AllocError;
use tam_istr::{FetchError, Fetched, Reader, StoreError};
use tam_msgs::Message;

/// What an access found.
#[derive(Clone, Copy, Debug, PartialEq, Eq)]
pub enum Fault {
    /// Two sites store into one cell.
    SecondStore { first: u32, second: u32 },
    /// The index of a site isn't below the array's length.
    OutsideCells { site: u32, index: u32, len: u32 },
}

/// What comes of a delivery.
#[derive(Drop)]
pub enum Delivery {
    Went { effect: Effect },
    /// An activation of a code is to begin, and its number goes to the call.
    Begins { code: u32, call: NodeAt },
    /// A cell has a word, and it goes to those who waited for it.
    Answered { word: u32, readers: Vec<Reader> },
    /// A word goes outside.
    Printed { place: u32, word: u32 },
    Faulted { fault: Fault },
}

impl World {
    /// Delivers a message. Cells change here; what else is to be done, the answer says.
    pub fn deliver(&mut self, message: Message) -> Result<Delivery, AllocError>
        requires arrays { length self.old.arrays < 4294967295 }
        ensures value { IfOk result (λ delivery. delivery_in self.new delivery ≡ delivered self.old message) }
        ensures kept { IfOk result (LeavesWorld self.old self.new) }
        ensures begins { IfOk result (λ delivery. begun_by delivery ≡ activations_wished message) }
        ensures cells { ChangesCells self.old self.new (cells_wished message) }

        // Memory is wanted only where there is no fault.
        ensures err { OnErr result (GoesWell (delivered self.old message)) }
    {
        match message {
            Message::Word { frame, inlet, word } => Ok(word_to(frame, inlet, word)),
            Message::Frame { code, frame, inlet } => Ok(Delivery::Begins {
                code,
                call: NodeAt {
                    activation: frame,
                    node: inlet,
                },
            }),
            Message::Cells { len, frame, inlet } => self.make_array(len, frame, inlet),
            Message::Fetch {
                array,
                index,
                frame,
                inlet,
                site,
            } => self.fetch(array, index, frame, inlet, site),
            Message::Store {
                array,
                index,
                word,
                site,
            } => Ok(self.store(array, index, word, site)),
        }
    }

    // An array is made, and its number goes to the alloc.
    fn make_array(&mut self, len: u32, frame: u32, inlet: u32) -> Result<Delivery, AllocError>
        requires arrays { length self.old.arrays < 4294967295 }
        ensures value { IfOk result (λ delivery. delivery_in self.new delivery ≡ delivered self.old (Message.Cells len frame inlet)) }
        ensures kept { IfOk result (LeavesWorld self.old self.new) }
        ensures begins { IfOk result (λ delivery. begun_by delivery ≡ 0) }
        ensures cells { ChangesCells self.old self.new len }
    {
        let word = self.cells.alloc_cells(len)?;
        self.makers.push(NodeAt {
            activation: frame,
            node: inlet,
        })?;
        Ok(sent(Message::Word { frame, inlet, word }))
    }

    // A cell is read.
    fn fetch(
        &mut self,
        array: u32,
        index: u32,
        frame: u32,
        inlet: u32,
        site: u32,
    ) -> Result<Delivery, AllocError>
        ensures value { IfOk result (λ delivery. delivery_in self.new delivery ≡ delivered self.old (Message.Fetch array index frame inlet site)) }
        ensures kept { IfOk result (LeavesWorld self.old self.new) }
        ensures begins { IfOk result (λ delivery. begun_by delivery ≡ 0) }
        ensures cells { ChangesCells self.old self.new 0 }
        ensures err { OnErr result (GoesWell (delivered self.old (Message.Fetch array index frame inlet site))) }
    {
        match self.cells.fetch(array, index, Reader { frame, inlet }) {
            Ok(Fetched::Now(word)) => Ok(sent(Message::Word { frame, inlet, word })),
            Ok(Fetched::Deferred) => Ok(Delivery::Went {
                effect: Effect::Nothing,
            }),
            Err(FetchError::NoArray) => Ok(outside(site, index, 0)),
            Err(FetchError::OutOfRange { len }) => Ok(outside(site, index, len)),
            Err(FetchError::NoMemory) => Err(AllocError),
        }
    }

    // A cell is written.
    fn store(&mut self, array: u32, index: u32, word: u32, site: u32) -> Delivery
        ensures value { delivery_in self.new result ≡ delivered self.old (Message.Store array index word site) }
        ensures kept { LeavesWorld self.old self.new result }
        ensures begins { begun_by result ≡ 0 }
        ensures cells { ChangesCells self.old self.new 0 }
    {
        match self.cells.store(array, index, word, site) {
            Ok(readers) => Delivery::Answered { word, readers },
            Err(StoreError::NoArray) => outside(site, index, 0),
            Err(StoreError::OutOfRange { len }) => outside(site, index, len),
            Err(StoreError::Twice { first }) => Delivery::Faulted {
                fault: Fault::SecondStore {
                    first,
                    second: site,
                },
            },
        }
    }
}

// A word goes to a node, or outside.
fn word_to(frame: u32, inlet: u32, word: u32) -> Delivery
    ensures value { (w : WorldRecord) → delivery_in w result ≡ delivered w (Message.Word frame inlet word) }
    ensures kept { (w : WorldRecord) → LeavesWorld w w result }
    ensures begins { begun_by result ≡ 0 }
{
    if frame == OUTSIDE {
        return Delivery::Printed { place: inlet, word };
    }
    Delivery::Went {
        effect: Effect::Gives {
            at: NodeAt {
                activation: frame,
                node: inlet,
            },
            word,
        },
    }
}

// A message is sent.
fn sent(message: Message) -> Delivery
    ensures value { result ≡ Delivery.Went (Effect.Sends message) }
{
    Delivery::Went {
        effect: Effect::Sends { message },
    }
}

// An access at an index that isn't below the array's length.
fn outside(site: u32, index: u32, len: u32) -> Delivery
    ensures value { result ≡ Delivery.Faulted (Fault.OutsideCells site index len) }
{
    Delivery::Faulted {
        fault: Fault::OutsideCells { site, index, len },
    }
}
