// The walk over the sets of one size in the published order: from a set, in place, to the next one, with the wire that leaves and the wire
// that enters. It needs no table of counts; how many places of a set it looks at is bounded on the average over all sets of a size. It knows no
// record and no verdict.
#![tactic(auto)]

ghost use Rattle.std.specs.Prelude.{◌≡◌, true, ◌+◌, ◌≤◌, ◌<◌, length, get_or};
ghost use Rattle.limits.specs.Limits.{max_wires};
ghost use Rattle.revolving.specs.Order.{is_set};
ghost use Rattle.walk.specs.Neighbours.{Exchanged, HasNext, next_set};
ghost use Rattle.walk.specs.Places.{limit, is_odd, room, Blocked};

// The wire that left a set and the wire that entered it.
#[derive(Clone, Copy)]
pub struct Exchange {
    pub leaves: usize,
    pub enters: usize,
}

// What the wire at a place stays below: the next wire of the set, or the number of wires.
fn limit(wires: usize, set: &[u16], place: usize) -> usize
    requires { place < length set.now }
    ensures { result ≡ limit wires set.now (place + 1) }
{
    if place + 1 < set.len() {
        return set[place + 1] as usize;
    }
    wires
}

// The next set, where the lowest wire can not move. Directions alternate from place to place. A wire may fall where those below it could
// not rise, and rise where they could not fall.
fn climb(wires: usize, set: &mut [u16]) -> Exchange
    requires { (wires ≤ max_wires) × HasNext wires set.old × Blocked (is_odd (length set.old)) wires set.old 0 }
    ensures set_after { set.new ≡ next_set wires set.old }
    ensures exchanged { Exchanged set.old set.new result.leaves result.enters }
{
    // whether the wires up to `below` were to rise, and could not
    let mut rising = set.len() % 2 == 1;
    for below in 0..set.len() - 1 {
        let place = below + 1;
        let wire = set[place] as usize;
        if rising {
            if place < wire {
                let lower = set[below];
                set[below] = below as u16;
                set[place] = lower;
                return Exchange {
                    leaves: wire,
                    enters: below,
                };
            }
        } else if wire + 1 < limit(wires, set, place) {
            set[below] = wire as u16;
            set[place] = (wire + 1) as u16;
            return Exchange {
                leaves: below,
                enters: wire + 1,
            };
        }
        rising = !rising;
    }
    // the set would be the last
    unreachable!()
}

// How many steps in a row move the lowest wire alone, by one each.
pub fn steps_of_lowest(wires: usize, set: &[u16]) -> usize
    requires { (0 < length set.now) × (is_set wires (length set.now) set.now ≡ true) }
    ensures { result ≡ room wires set.now }
{
    let lowest = set[0] as usize;
    if set.len() % 2 == 1 {
        return limit(wires, set, 0) - 1 - lowest;
    }
    lowest
}

// Takes a set to the next one where its lowest wire, which leaves, can move: up where the size is odd, down where it is even. The answer is
// the wire that enters, the new lowest.
pub fn slide(wires: usize, set: &mut [u16], lowest: usize) -> usize
    requires { (wires ≤ max_wires) × HasNext wires set.old × (lowest ≡ get_or set.old 0 0) × (0 < room wires set.old) }
    ensures set_after { set.new ≡ next_set wires set.old }
    ensures exchanged { Exchanged set.old set.new lowest result }
    ensures value { (result ≡ get_or set.new 0 0) × (room wires set.new + 1 ≡ room wires set.old) }
{
    if set.len() % 2 == 1 {
        set[0] = (lowest + 1) as u16;
        return lowest + 1;
    }
    set[0] = (lowest - 1) as u16;
    lowest - 1
}

// Takes a set to the next one of its size: the lowest wire moves where it can.
pub fn step(wires: usize, set: &mut [u16]) -> Exchange
    requires { (wires ≤ max_wires) × HasNext wires set.old }
    ensures set_after { set.new ≡ next_set wires set.old }
    ensures exchanged { Exchanged set.old set.new result.leaves result.enters }
{
    if 0 < steps_of_lowest(wires, set) {
        let lowest = set[0] as usize;
        let enters = slide(wires, set, lowest);
        return Exchange {
            leaves: lowest,
            enters,
        };
    }
    climb(wires, set)
}
