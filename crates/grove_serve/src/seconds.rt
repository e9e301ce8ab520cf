//! Serving a store that is kept each second, beside the rounds of its desk.
ghost use Rattle.std.specs.Prelude.{◌≡◌, false};
ghost use denote.Param.Send.{IsSend, IsSync};

use crate::connections::{log_event, serve_at};
use crate::event::Event;
use crate::host::{Host, NetHost};
use crate::service::{Doors, KeptStore};
use crate::slots::Slots;
use grove_data::{KeptBeside, KeptCopies};
use grove_desk::{Desk, Opening};
use grove_store::{Keeper, Unkept};
use grove_tree::OpenGate;
use std::sync::atomic::AtomicBool;
use std::thread;
use std::time::Duration;

/// A line that changes nothing. At a desk whose store couldn't be kept it shows that.
const SHOWING: &[u8] = b"{\"weights\":null}";

/// Serves connections at a desk over the store, a copy of which is kept each second in which lines were answered, and
/// once more at the end.
pub fn serve_by_seconds<B: Opening + Send + Sync, R: NetHost, K: Keeper + Drop + Send>(
    rt: &R,
    served: KeptStore<K>,
    slots: &Slots,
    doors: &Doors,
) -> Option<K>
    requires store { served ≡ B.store }
    requires kept { B.kept ≡ false }
{
    let KeptStore { store, keeper } = served;
    let has_failed = AtomicBool::new(false);
    let mut copies = KeptCopies::<B, K>::new(keeper, &store, &has_failed);
    let beside = KeptBeside::new(&has_failed);
    let desk = Desk::<B, KeptBeside<'_>>::open(rt.alloc(), store, beside, false);
    let is_served = serve_beside(rt, &desk, slots, doors, &mut copies);
    let Ok(closed) = desk.close(rt.alloc(), &[]) else {
        return None;
    };
    let _kept = copies.keep_copy(rt.alloc(), &closed.store);
    if is_served {
        Some(copies.into_keeper())
    } else {
        None
    }
}

/// Serves connections in a thread of its own, and keeps copies of the store meanwhile. Says whether there were the
/// threads for it.
fn serve_beside<B: Opening + Send + Sync, R: NetHost, D: Keeper + Drop + Send, K: Keeper>(
    rt: &R,
    desk: &Desk<B, D>,
    slots: &Slots,
    doors: &Doors,
    copies: &mut KeptCopies<'_, B, K>,
) -> bool
    requires { desk.now.opening ≡ B.store }
{
    log_event(rt, slots, Event::EachSecond);
    thread::scope(
        thread::scope_env(),
        rt,
        |scope|
            requires opening { desk.now.opening ≡ B.store }
            requires crossing { IsSend B.row × IsSync B.row × IsSync R.row × IsSend D.row }
        {
            let served = scope.spawn(move || {
                let is_served = serve_at(rt, desk, slots, doors);
                slots.streams().close(rt);
                is_served
            });
            match served {
                Ok(served) => {
                    keep_seconds(rt, desk, slots, copies);
                    served.join(rt)
                }
                Err(_) => {
                    log_event(rt, slots, Event::NoGuard);
                    false
                }
            }
        },
    )
}

/// Keeps a copy of the store each second in which lines were answered, until connections aren't served any more, or a
/// copy couldn't be kept. One for which there is no memory is kept a second later.
fn keep_seconds<B: Opening, R: Host, D: Keeper + Drop, K: Keeper>(
    rt: &R,
    desk: &Desk<B, D>,
    slots: &Slots,
    copies: &mut KeptCopies<'_, B, K>,
)
    requires { desk.now.opening ≡ B.store }
{
    let mut before = 0;
    for _ in rt.forever() {
        if slots.streams().ends_within(rt, Duration::from_secs(1)) {
            break;
        }
        let lines = slots.metrics().lines.get();
        if lines == before {
            continue;
        }
        let Ok(copy) = desk.snapshot(rt, rt.alloc()) else {
            continue;
        };
        before = lines;
        if let Err(Unkept) = copies.keep_copy(rt.alloc(), &copy) {
            // The desk learns of it by the next line.
            let _refused = desk.answer(rt, rt.alloc(), None, SHOWING, &OpenGate);
            slots.streams().fail(rt);
            break;
        }
    }
}
