// The instructions of a node.
ghost use Rattle.std.specs.Prelude.{◌≡◌, ◌++◌, ◌<◌, true, false, [], ◌∷◌, length, map, flat_map, option_to_list, IfOk, IfSome, OnOk};
ghost use Rattle.tam_graph.specs.Graphs.{kind_at, block_at, owner_of, is_inlet};
ghost use Rattle.tl0_code.specs.declared.instr.Instr.TheVariants.{Mov as Moved, Fork as Forked, Switch as Switched};
ghost use Rattle.tl0_keep.specs.Compiled.{vertex_instrs, instrs_of, leave_to, switch_into, slot_of, thread_of_inlet, inlet_nodes};
ghost use Rattle.tl0_keep.specs.Compiled.{then_connector, else_connector};
ghost use Rattle.tl0_emit.specs.CodeParts.{its_code, IsCodeOf};
ghost use Rattle.tl0_emit.specs.Tables.{is_out};

use crate::CodeTables;
use std::alloc::Global;
use tam_edge::NoMemory;
use tam_graph::Kind;
use tam_split::Vertex;
use tam_world::nodes::{block_at, kind_at, test_of};
use tam_world::{find_enter, find_merge};
use tl0_code::{Inlet, Instr};

impl CodeTables<'_> {
    /// The inlets of the code.
    pub fn inlet_list(&self, alloc: Global) -> Result<Vec<Inlet>, NoMemory>
        ensures value { IfOk result (λ inlets. inlets.items ≡ map (λ x. record {
          slot = slot_of (its_code self.now) x;
          thread = thread_of_inlet
              (its_code self.now) self.now.parts x;
        }) (inlet_nodes self.now.graph (its_code self.now))) }
    {
        let mut inlets = Vec::new(alloc);
        for node in self.inlet_nodes() {
            inlets.push(Inlet {
                slot: self.slot(*node),
                thread: self.inlet_thread(*node),
            })?;
        }
        Ok(inlets)
    }

    /// Puts the instructions of a vertex behind the others.
    pub fn push_vertex(&self, instrs: &mut Vec<Instr>, vertex: Vertex) -> Result<(), NoMemory>
        requires in_range { vertex.node < length (its_code self.now).nodes }
        ensures ok { OnOk result (instrs.new.items ≡ instrs.old.items ++ vertex_instrs self.now.graph (its_code self.now) self.now.parts vertex) }
    {
        if vertex.inlet {
            return Ok(());
        }
        let kind = kind_at(self.graph(), self.number(), vertex.node);
        match kind {
            Kind::Leave { place, a } => self.push_leaving(instrs, vertex.node, place, a),
            _ => push_some(instrs, self.instr_of(vertex.node, kind)),
        }
    }

    // The instruction of a node that isn't an `out`.
    fn instr_of(&self, x: u32, kind: Kind) -> Option<Instr>
        requires code { IsCodeOf self.now }
        requires in_range { x < length (its_code self.now).nodes }
        requires kind { kind_at (its_code self.now) x ≡ kind }
        requires no_out { is_out kind ≡ false }
        ensures value { option_to_list result ≡ instrs_of self.now.graph (its_code self.now) self.now.parts x kind }
    {
        match kind {
            Kind::Const { word } => Some(Instr::Imm {
                d: self.slot(x),
                word,
            }),
            Kind::Op { op, a, b } => Some(Instr::Op {
                op,
                d: self.slot(x),
                a: self.slot(a),
                b: self.slot(b),
            }),
            Kind::Seq { a, .. } => Some(Instr::Mov {
                d: self.slot(x),
                a: self.slot(a),
            }),
            Kind::Arg { call, place, a } => Some(Instr::Send {
                f: self.slot(call),
                inlet: place,
                a: self.slot(a),
            }),
            Kind::Give { place, a } => Some(Instr::Ret {
                place,
                a: self.slot(a),
            }),
            Kind::Store { array, index, a } => Some(Instr::Istore {
                array: self.slot(array),
                index: self.slot(index),
                a: self.slot(a),
                node: x,
            }),
            Kind::Cond { test, .. } => Some(self.switch_on(test, x)),
            Kind::Switch { cond, .. } => {
                Some(self.switch_on(test_of(self.graph(), self.number(), cond), x))
            }
            _ => self.ask_of(x, kind),
        }
    }

    // The instruction of a node that has its value from outside: what asks for it.
    fn ask_of(&self, x: u32, kind: Kind) -> Option<Instr>
        requires code { IsCodeOf self.now }
        requires in_range { x < length (its_code self.now).nodes }
        requires kind { kind_at (its_code self.now) x ≡ kind }
        requires inlet { is_inlet kind ≡ true }
        ensures value { option_to_list result ≡ instrs_of self.now.graph (its_code self.now) self.now.parts x kind }
    {
        match kind {
            Kind::Call { callee } => Some(Instr::Falloc {
                code: callee,
                inlet: self.inlet(x),
            }),
            Kind::Alloc { len } => Some(Instr::Ialloc {
                n: self.slot(len),
                inlet: self.inlet(x),
            }),
            Kind::Fetch { array, index } => Some(Instr::Ifetch {
                array: self.slot(array),
                index: self.slot(index),
                inlet: self.inlet(x),
                node: x,
            }),
            _ => None,
        }
    }

    // Goes to one of the connectors of a cond or a switch by the value of a node.
    fn switch_on(&self, test: u32, node: u32) -> Instr
        requires test { test < length (its_code self.now).nodes }
        requires node { node < length (its_code self.now).nodes }
        ensures value { result ≡ Switched (slot_of (its_code self.now) test) (then_connector (its_code self.now) self.now.parts node) (else_connector
            (its_code self.now) self.now.parts node) }
    {
        let yes = self.then_connector(node);
        Instr::Switch {
            s: self.slot(test),
            yes,
            no: yes + 1,
        }
    }

    // Puts behind the others what gives the value of a node to the merge of a place of the cond that opens the block of an `out`.
    fn push_leaving(
        &self,
        instrs: &mut Vec<Instr>,
        node: u32,
        place: u32,
        a: u32,
    ) -> Result<(), NoMemory>
        requires in_range { a < length (its_code self.now).nodes }
        ensures ok { OnOk result (instrs.new.items ≡ instrs.old.items ++ leave_to (its_code self.now) self.now.parts place a (owner_of (its_code self.now)
            (block_at (its_code self.now) node))) }
    {
        let block = block_at(self.graph(), self.number(), node);
        let merge = find_merge(self.program(), self.number(), block, place);
        self.push_gift(instrs, a, merge)
    }

    /// Puts behind the others what gives the value of a node to the `in` of a place of a block.
    pub fn push_entering(
        &self,
        instrs: &mut Vec<Instr>,
        node: u32,
        place: u32,
        block: u32,
    ) -> Result<(), NoMemory>
        requires in_range { node < length (its_code self.now).nodes }
        ensures ok { OnOk result (instrs.new.items ≡ instrs.old.items ++ switch_into (its_code self.now) self.now.parts node place block) }
    {
        let enter = find_enter(self.program(), self.number(), block, place);
        self.push_gift(instrs, node, enter)
    }

    // Puts behind the others what gives the value of a node to an inlet, where there is one.
    fn push_gift(&self, instrs: &mut Vec<Instr>, a: u32, inlet: Option<u32>) -> Result<(), NoMemory>
        requires in_range { a < length (its_code self.now).nodes }
        requires inlet { IfSome inlet (λ m. (m < length (its_code self.now).nodes) × (is_inlet (kind_at (its_code self.now) m) ≡ true)) }
        ensures ok { OnOk result (instrs.new.items ≡ instrs.old.items ++ flat_map (λ m. Moved (slot_of (its_code self.now) m) (slot_of (its_code self.now) a)
            ∷ Forked (thread_of_inlet (its_code self.now) self.now.parts m) ∷ []) (option_to_list inlet)) }
    {
        let Some(inlet) = inlet else {
            return Ok(());
        };
        instrs.push(Instr::Mov {
            d: self.slot(inlet),
            a: self.slot(a),
        })?;
        instrs.push(Instr::Fork {
            thread: self.inlet_thread(inlet),
        })?;
        Ok(())
    }
}

// Puts an instruction behind the others, where there is one.
fn push_some(instrs: &mut Vec<Instr>, instr: Option<Instr>) -> Result<(), NoMemory>
    ensures ok { OnOk result (instrs.new.items ≡ instrs.old.items ++ option_to_list instr) }
{
    if let Some(instr) = instr {
        instrs.push(instr)?;
    }
    Ok(())
}
