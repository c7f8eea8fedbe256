// The requests that are captured, each from where the one before it ended, whole or with the power cut after some cycles.
use demo_store::{Depth, Ended, Store, UNCUT};

#[derive(Clone, Copy)]
pub enum Call {
    // Of a new chip.
    Format,
    // A5h into page 0 of logical block 0.
    Write,
    Mount,
}

// No bit of an operation that is cut takes effect, and every operation passes without a busy status read.
pub(crate) const MASK: [u8; 192] = [0; 192];

pub(crate) const FATES: [u32; 0] = [];

impl Call {
    // How the request ends on a store with so many cycles allowed.
    fn perform(self, store: Store, allowed: u32) -> Ended {
        match self {
            Call::Format => store.format(&MASK, &FATES, allowed),
            Call::Write => store.write(&MASK, &FATES, allowed, 0, 0, 0xa5),
            Call::Mount => store.mount(Depth::Full, &MASK, &FATES, allowed),
        }
    }

    // The store that the request finds.
    fn start(self) -> Store {
        let new = Store::new(2);
        match self {
            Call::Format => new,
            Call::Write => formatted(new),
            Call::Mount => written(formatted(new)),
        }
    }

    // How the request ends with so many cycles allowed.
    pub(crate) fn ended(self, allowed: u32) -> Ended {
        self.perform(self.start(), allowed)
    }

    // The chip that the request leaves where the power is cut after so many cycles.
    pub(crate) fn left_after(self, sent: usize) -> Store {
        self.ended((sent % 4294967296) as u32).store
    }
}

fn formatted(store: Store) -> Store {
    Call::Format.perform(store, UNCUT).store
}

fn written(store: Store) -> Store {
    Call::Write.perform(store, UNCUT).store
}
