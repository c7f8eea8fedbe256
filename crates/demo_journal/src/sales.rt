// The requests on the journal, made on the small chip with no mask bit, no fate word and no cut: what each line of sales does.
ghost use Rattle.std.specs.Prelude.{◌≡◌};
ghost use Rattle.demo_journal.specs.Sales.{appended_on, told_on, entered_on, served};

use demo_store::{Ended, Store, UNCUT};
use journal::Sale;

// How an append ended, and the number that the record got, 0 unless it is answered 0.
#[derive(Clone, Copy)]
pub struct Appended {
    pub ended: Ended,
    pub number: usize,
}

// How a request for the takings ended, and the sum in cents, 0 unless it is answered 0.
#[derive(Clone, Copy)]
pub struct Told {
    pub ended: Ended,
    pub takings: u64,
}

// What is printed of a line: answer and number of its append, and the takings told after it.
#[derive(Clone, Copy, Debug, PartialEq, Eq)]
pub struct Figures {
    pub answer: usize,
    pub number: usize,
    pub takings: u64,
}

// A line that was served, and the store that it left.
#[derive(Clone, Copy)]
pub struct Served {
    pub figures: Figures,
    pub store: Store,
}

// Appends a record.
fn append(mut store: Store, sale: Sale) -> Appended
    ensures { result ≡ appended_on store sale }
{
    let entered = journal_requests::append(
        store.state,
        store.geometry,
        store.interface,
        &mut store.array,
        &mut store.register,
        &mut store.history,
        &[0u8; 192],
        &[0u32; 0],
        UNCUT,
        sale,
    );
    Appended {
        ended: store.ended(entered.returned),
        number: entered.number,
    }
}

// Asks for the takings.
fn tell(mut store: Store) -> Told
    ensures { result ≡ told_on store }
{
    let total = journal_requests::takings(
        store.state,
        store.geometry,
        store.interface,
        &mut store.array,
        &mut store.register,
        &mut store.history,
        &[0u8; 192],
        &[0u32; 0],
        UNCUT,
    );
    Told {
        ended: store.ended(total.returned),
        takings: total.takings,
    }
}

// Appends a record, and then asks for the takings.
fn enter(store: Store, sale: Sale) -> Served
    ensures { result ≡ entered_on store sale }
{
    let appended = append(store, sale);
    let told = tell(appended.ended.store);
    Served {
        figures: Figures {
            answer: appended.ended.answer,
            number: appended.number,
            takings: told.takings,
        },
        store: told.ended.store,
    }
}

// Serves a line; one that is malformed gets 2, and no request is made.
#[tactic(auto, unfolding(crate::specs::Sales::served))]
pub(crate) fn serve(store: Store, entry: Option<Sale>) -> Served
    ensures { result ≡ served store entry }
{
    match entry {
        Some(sale) => enter(store, sale),
        None => Served {
            figures: Figures {
                answer: 2,
                number: 0,
                takings: 0,
            },
            store,
        },
    }
}
