//! What each worker does.

ghost use Rattle.zl_pool.specs.Pool.{Finds, Gives};

use crate::gate::Gate;
use std::sync::{Condvar, Mutex, MutexGuard, Wait};
use zl_interp::{Done, Spent, Stop, Turn};
use zl_sched::{HandIn, Kernel};

/// The kernel behind its lock, and where workers wait until something was handed in.
///
/// Source: own profile.
#[derive(Drop)]
pub struct Desk<K: Kernel> {
    pub kernel: Mutex<K>,
    pub handed_in: Condvar,
}

impl<K: Kernel> Desk<K> {
    /// A desk at which nobody works yet.
    pub fn new(kernel: K) -> Desk<K> {
        Desk {
            kernel: Mutex::new(kernel),
            handed_in: Condvar::new(),
        }
    }
}

/// What a worker finds.
enum Found {
    Turn(Turn),
    /// Nothing is ready, but something is out.
    Waits,
    /// Nothing is ready and nothing is out.
    Idle,
    /// Memory for the turn was refused.
    NoMemory,
}

/// The next turn, or why there is none. What is left of another turn is used up for it.
fn next<K: Kernel>(kernel: &mut K, spare: &mut Option<Spent>) -> Found
    ensures { Finds (K.meaning kernel.old) result (K.meaning kernel.new) }
{
    match kernel.take(spare) {
        Ok(Some(turn)) => Found::Turn(turn),
        Ok(None) => {
            if kernel.idle() {
                Found::Idle
            } else {
                Found::Waits
            }
        }
        Err(_) => Found::NoMemory,
    }
}

/// Hands in what was done, and says whether to go on. What is left of the turn comes back.
fn give<K: Kernel>(kernel: &mut K, done: Done) -> (bool, Spent)
    ensures { Gives (K.meaning kernel.old) done result.0 (K.meaning kernel.new) }
{
    let (answer, spent) = kernel.hand_in(done);
    match answer {
        HandIn::Taken | HandIn::Gone | HandIn::Stranger => (true, spent),
        HandIn::Limit | HandIn::NoMemory => (false, spent),
    }
}

/// Waits for a turn, and wakes the next to look for one if it has to. There is none where the kernel is
/// idle or memory was refused.
fn next_turn<'a, R: Wait, K: Kernel>(
    rt: &R,
    desk: &'a Desk<K>,
    kernel: MutexGuard<'a, K>,
    wakes: bool,
    spare: &mut Option<Spent>,
) -> Option<Turn> {
    let (mut kernel, mut wakes) = (kernel, wakes);
    for _ in rt.forever() {
        match next(&mut *kernel, spare) {
            Found::Turn(turn) => {
                drop(kernel);
                if wakes {
                    desk.handed_in.notify_one();
                }
                return Some(turn);
            }
            Found::Waits => {
                kernel = desk.handed_in.wait(rt, kernel);
                wakes = true;
            }
            Found::Idle | Found::NoMemory => return None,
        }
    }
    unreachable!()
}

/// Takes turns, lets the gate run them for so many local instructions at most while the lock is free, and
/// hands them in, until the kernel is idle, its trace is full or memory is refused; 0 count as 1.
///
/// While nothing is ready, but something is out, it waits until something was handed in; so it waits for
/// ever for what nobody hands in. Source: own profile.
// No turn is left to sleepers. Whoever hands in takes a turn itself, and wakes one if others may have become
// ready; each that was woken does so too where it finds a turn, so waking ends where none is left. Whoever
// ends wakes all: each of these finds a turn, ends, or waits for one that is out, whose worker comes back.
pub fn work<R: Wait, K: Kernel, G: Gate>(rt: &R, desk: &Desk<K>, gate: &G, most: u32) {
    let most = most.max(1);
    let mut wakes = false;
    // A turn lies where the last one of its worker lay, so behind the lock little memory comes or goes.
    let mut spare = None;
    let mut kernel = desk.kernel.lock(rt);
    for _ in rt.forever() {
        let Some(turn) = next_turn(rt, desk, kernel, wakes, &mut spare) else {
            break;
        };
        let done = gate.burst(turn, most);
        // By local instructions alone nobody else becomes ready.
        wakes = done.stop() != Stop::More;
        kernel = desk.kernel.lock(rt);
        let (goes_on, spent) = give(&mut *kernel, done);
        spare = Some(spent);
        if !goes_on {
            drop(kernel);
            break;
        }
    }
    desk.handed_in.notify_all();
}
