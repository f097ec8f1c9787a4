// A code of threads.
ghost use Rattle.std.specs.Prelude.{◌≡◌};
ghost use Rattle.tl0_code.specs.ThreadCode.{HasCodeLimits};

use crate::{Inlet, Thread};
use std::marker::Model;

/// The threads of one code: at most 1,026 slots, at most 1,024 inlets, and 1 to 3,073 threads.
///
/// docs/THREADS.md, "Thread code".
#[derive(Debug, Drop)]
pub struct Code0 {
    params: u32,
    results: u32,
    slots: u32,
    inlets: Vec<Inlet>,
    threads: Vec<Thread>,
}

impl Model for Code0 {
    ghost use Rattle.tl0_code.specs.ThreadCode.{CodeText};

    ghost Value = { CodeText };

    ghost use Rattle.tl0_code.specs.ThreadCode.{HasCodeLimits};

    ghost view = { λ c. record { params = c.params; results = c.results; slots = c.slots; inlets = c.inlets.items; threads = c.threads.items } };

    ghost invariant = { λ c. HasCodeLimits (record {
      params = c.params;
      results = c.results;
      slots = c.slots;
      inlets = c.inlets.items;
      threads = c.threads.items;
    }) };
}

impl Code0 {
    /// The code of these parts. Inlets and threads are numbered from 0, in this order.
    pub fn of(
        params: u32,
        results: u32,
        slots: u32,
        inlets: Vec<Inlet>,
        threads: Vec<Thread>,
    ) -> Code0
        requires limits { HasCodeLimits (record { params = params; results = results; slots = slots; inlets = inlets.items; threads = threads.items }) }
        ensures value { result ≡ record { params = params; results = results; slots = slots; inlets = inlets.items; threads = threads.items } }
    {
        Code0 {
            params,
            results,
            slots,
            inlets,
            threads,
        }
    }

    /// How many params it has.
    pub fn params(&self) -> u32
        ensures value { result ≡ self.now.params }
    {
        self.params
    }

    /// How many results it has.
    pub fn results(&self) -> u32
        ensures value { result ≡ self.now.results }
    {
        self.results
    }

    /// How many slots its frames have.
    pub fn slots(&self) -> u32
        ensures value { result ≡ self.now.slots }
        ensures limits { HasCodeLimits self.now }
    {
        self.slots
    }

    pub fn inlets(&self) -> &[Inlet]
        ensures value { result.now ≡ self.now.inlets }
        ensures limits { HasCodeLimits self.now }
    {
        &self.inlets
    }

    pub fn threads(&self) -> &[Thread]
        ensures value { result.now ≡ self.now.threads }
        ensures limits { HasCodeLimits self.now }
    {
        &self.threads
    }
}
