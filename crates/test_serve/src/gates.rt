//! Gates that hold requests.

ghost use Rattle.std.specs.Prelude.{◌≡◌, vec_len};
ghost use Rattle.bl_serve_ground.specs.Together.{AreTogether, seen_by};

use crate::served::opened;
use bl_index::{Index, Pass};
use bl_model::Watched;
use bl_serve::{Gate, serve};
use std::alloc::Global;
use std::sync::Wait;
use std::sync::atomic::{AtomicBool, AtomicU64, Ordering};
use std::thread;
use std::thread::Threads;

/// Holds request 1 until request 2 was carried out, for at most a million turns. Counts the requests that were carried out
/// when request 4 began.
#[derive(Drop)]
struct HoldsFirst {
    passed: AtomicBool,
    gave_up: AtomicBool,
    done: AtomicU64,
    done_before_the_fourth: AtomicU64,
}

impl HoldsFirst {
    fn new() -> HoldsFirst {
        HoldsFirst {
            passed: AtomicBool::new(false),
            gave_up: AtomicBool::new(false),
            done: AtomicU64::new(0),
            done_before_the_fourth: AtomicU64::new(9),
        }
    }
}

impl Gate for HoldsFirst {
    fn before(&self, request: u64) {
        if request == 4 {
            let done = self.done.load(Ordering::SeqCst);
            self.done_before_the_fourth.store(done, Ordering::SeqCst);
        }
        if request == 1 {
            for _ in 0..1_000_000 {
                if self.passed.load(Ordering::SeqCst) {
                    return;
                }
                thread::yield_now();
            }
            self.gave_up.store(true, Ordering::SeqCst);
        }
    }

    fn after(&self, request: u64) {
        if request == 2 {
            self.passed.store(true, Ordering::SeqCst);
        }
        self.done.fetch_add(1, Ordering::SeqCst);
    }

    fn save(&self, _name: &[u8], _rows: &[(u64, u64)]) -> bool {
        false
    }
}

/// Whether two passes that have met write these lines for those behind the gate.
fn answer_behind<R: Threads + Wait + Sync>(
    rt: &R,
    alloc: Global,
    index: &Index,
    passes: Vec<Pass>,
    gate: &HoldsFirst,
    input: &[u8],
    output: &[u8],
) -> bool
    requires many { vec_len passes ≡ 2 }
    requires together { AreTogether index.now (seen_by passes.items) passes.items }
{
    let mut reader = Watched::new(input);
    let mut writer = Watched::new(Vec::new(alloc));
    match serve(rt, index, passes, &mut reader, &mut writer, gate, 2) {
        Ok(_) => writer.into_inner().as_slice() == output,
        Err(_) => false,
    }
}

// While the first request is held, another worker answers the second one. The fourth, behind the sync, begins only when both
// were carried out.
#[test]
fn two_workers_at_once(rt: HostRuntime) {
    let gate = HoldsFirst::new();
    let input = b"insert 1 10\ninsert 2 20\nsync\nfind 1\n".as_slice();
    let output = b"1 inserted\n2 inserted\n3 synced\n4 found 10\n".as_slice();
    let served = match opened(rt.alloc(), 8, 2) {
        Some((index, passes)) => {
            answer_behind(&rt, rt.alloc(), &index, passes, &gate, input, output)
        }
        None => false,
    };
    let gave_up = gate.gave_up.load(Ordering::SeqCst);
    let done = gate.done_before_the_fourth.load(Ordering::SeqCst);
    assert_eq!(rt; (served, gave_up, done), (true, false, 2));
}
