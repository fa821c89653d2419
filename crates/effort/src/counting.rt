// A machine that counts how often it is asked for its start, and for whether two standings are the same, and is else the machine
// that it holds.
use machines::machine::{Machine, Taken};
use machines::picture::Picture;
use std::cell::Cell;

// Each call is handed on by hand: a trait has no plainer way to be another value in all its calls but two.
#[derive(Clone, Copy)]
pub struct Counting<'a, M> {
    pub machine: M,
    pub starts: &'a Cell<u32>,
    pub compared: &'a Cell<u64>,
}

impl<M: Machine> Machine for Counting<'_, M> {
    type Standing = M::Standing;

    ghost program = { λ c. M.program c.machine };

    ghost means = { λ c. M.means c.machine };

    fn start(&self) -> M::Standing {
        self.starts.set(self.starts.get().saturating_add(1));
        self.machine.start()
    }

    fn width(&self) -> u8 {
        self.machine.width()
    }

    fn step(&self, standing: &M::Standing, number: u8) -> Option<Taken<M::Standing>> {
        self.machine.step(standing, number)
    }

    fn picture(&self, standing: &M::Standing) -> Option<Picture> {
        self.machine.picture(standing)
    }

    fn same(&self, one: &M::Standing, other: &M::Standing) -> bool {
        self.compared.set(self.compared.get().saturating_add(1));
        self.machine.same(one, other)
    }

    ghost lawful = { λ c. M.lawful c.machine };
}
