// Which events push, and which lists are push orders.
ghost use Rattle.std.specs.Prelude.{ℕ, ◌≤◌, false, List, Decides, slice_index_or};
ghost use Rattle.graph.specs.declared.event.Event.{Event};
ghost use Rattle.axioms.specs.Asked.{AskedOf};
ghost use Rattle.axioms.specs.Relations.{Pushes, PushOrder};
ghost use Rattle.axioms.specs.PushOrders.{Lists, Increasing, Pushing, CountPushing, Front};

use crate::pairs::Pairs;
use measures::settling::LARGEST;

impl Pairs {
    /// Does an event push: is it the first of a pushed pair? A number that names no event does not.
    pub fn pushes(&self, event: u8) -> bool
        ensures { AskedOf self.now (λ m es. Decides result (Pushes m es event)) }
    {
        (0..self.side() as u8).any(|other| self.pushed.says(event, other))
    }

    /// Writes the pushing events to the front of `list`, by rising number, and answers how many they are.
    pub fn pushing(&self, list: &mut [u8; LARGEST]) -> usize
        ensures few { result ≤ 64 }
        ensures told { AskedOf self.now (λ m es. Front (Pushing m es) list.old list.new result) }
    {
        // No heap: the list goes into lent memory, and the count says how much of that is the list's.
        let flags = self.flags();
        collect(&flags, list)
    }

    /// How many events push.
    pub fn count_pushing(&self) -> usize
        ensures few { result ≤ 64 }
        ensures told { AskedOf self.now (λ m es. CountPushing m es result) }
    {
        let mut list = [0; LARGEST];
        self.pushing(&mut list)
    }

    /// Is `list` a push order: the pushing events, each once? It may have any length, and hold any numbers.
    pub fn is_push_order(&self, list: &[u8]) -> bool
        ensures { AskedOf self.now (λ m es. Decides result (PushOrder m es list.now)) }
    {
        lists_exactly(self.flags(), list)
    }

    // The flag of each event that pushes.
    fn flags(&self) -> [bool; LARGEST]
        ensures { AskedOf self.now (λ m es. (a : ℕ) → Decides (slice_index_or result a false) (Pushes m es a)) }
    {
        let mut flags = [false; LARGEST];
        for (event, flag) in flags.iter_mut().enumerate() {
            *flag = self.pushes(event as u8);
        }
        flags
    }
}

// Writes the marked events to the front of a list, by rising number, and answers how many they are.
fn collect(flags: &[bool; LARGEST], list: &mut [u8; LARGEST]) -> usize
    ensures few { result ≤ 64 }
    ensures told { Front (λ L. Lists flags.now L × Increasing L) list.old list.new result }
{
    // No heap: the list goes into lent memory, and the count says how much of that is the list's.
    let mut count = 0;
    for (event, marked) in flags.iter().enumerate() {
        if *marked {
            list[count] = event as u8;
            count += 1;
        }
    }
    count
}

// Is `list` the marked events, each once? The flag of an event goes down when the list has it.
fn lists_exactly(mut flags: [bool; LARGEST], list: &[u8]) -> bool
    ensures { Decides result (Lists flags list.now) }
{
    for event in list {
        let at = *event as usize;
        if flags.get(at) != Some(&true) {
            return false;
        }
        flags[at] = false;
    }
    !flags.contains(&true)
}
