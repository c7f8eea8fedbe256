// What a page of a fill is made of: its main bytes, and its program with label and check.
#![tactic(auto)]

ghost use Rattle.std.specs.Prelude.{true, ◌≡◌, ◌*◌, ◌<◌, length, take, replicate};
ghost use Rattle.geometry.specs.Limits.{Valid};
ghost use Rattle.geometry.specs.Sizes.{page_size, row_of};
ghost use Rattle.chip_array.specs.Device.{setting};
ghost use Rattle.bus.specs.Line.{line, send_all};
ghost use Rattle.bus_polling.specs.Outcomes.{is_passed};
ghost use Rattle.bus_polling.specs.Polling.{answer_of};
ghost use Rattle.bus_sequences.specs.Cycles.{program_cycles};
ghost use Rattle.operations.specs.Ends.{Lent};
ghost use Rattle.whitening.specs.Whitened.{whitened};
ghost use Rattle.copies.specs.Blocks.{formed};
ghost use Rattle.fill.specs.Fill.{kept, copy, stored_page, Fillable, Reaches, main_of, main_read, data_source, is_given, given_main, both_white};

use bus::Bus;
use bus_polling::{Done, Outcome};
use geometry::Geometry;

// What a copy holds beside the bytes that are given: its label, the block of the old copy (none where it is not on the chip)
// and its kind, and which pages are given, so many from the first on.
#[derive(Clone, Copy)]
pub struct Content {
    pub kind: u8,
    pub logical: usize,
    pub number: u64,
    pub old: usize,
    pub form: u8,
    pub first: usize,
    pub count: usize,
}

// Whether the bytes of a page are given.
fn is_given(content: Content, place: usize) -> bool
    ensures { result ≡ is_given content.first content.count place }
{
    let first = content.first;
    if place < first {
        return false;
    }
    place - first < content.count
}

// Finishes a page whose main bytes are in the buffer as they are stored, and programs it.
pub fn program_page(
    from: Bus,
    g: Geometry,
    array: &mut [u8],
    register: &mut [u8],
    history: &mut [u8],
    mask: &[u8],
    fates: &[u32],
    block: usize,
    place: usize,
    content: Content,
    page: &mut [u8],
) -> Done
    requires { Fillable g block place content.kind content.logical (length page.old) }
    ensures history_after { line result.bus array.new register.new history.new ≡ send_all (setting g mask.now fates.now) (line from array.old register.old history.old) (program_cycles (setting g mask.now fates.now) (line from array.old register.old history.old) (row_of g block place) (stored_page g (copy content.kind content.logical content.number) place (take g.main page.old))) }
    ensures outcome_value { result.outcome ≡ answer_of (line result.bus array.new register.new history.new) }
{
    pages::finish_page(
        page,
        g.main,
        content.kind,
        content.logical,
        place,
        content.number,
    );
    let row = geometry::row_of(g, block, place);
    operations::program(from, g, array, register, history, mask, fates, row, page)
}

// Whitens the main bytes in the buffer, or undoes it.
fn whiten_main(g: Geometry, place: usize, page: &mut [u8])
    requires valid { Valid g }
    requires place_lt_pages { place < g.pages }
    requires page_len { length page.old ≡ page_size g }
    ensures { take g.main page.new ≡ whitened place (take g.main page.old) }
{
    let main = g.main;
    whitening::whiten(place, &mut page[0..main]);
}

// Brings the main bytes in the buffer into the form of a kind, or back from it.
fn form_main(g: Geometry, kind: u8, place: usize, page: &mut [u8])
    requires valid { Valid g }
    requires place_lt_pages { place < g.pages }
    requires page_len { length page.old ≡ page_size g }
    ensures { take g.main page.new ≡ formed kind place (take g.main page.old) }
{
    if pages::is_white(kind) {
        whiten_main(g, place, page);
    }
}

// Whether bytes that are whitened stay so.
fn stay_white(form: u8, kind: u8) -> bool
    ensures { result ≡ both_white form kind }
{
    if pages::is_white(form) {
        return pages::is_white(kind);
    }
    false
}

// Brings the main bytes in the buffer from the form of one kind into that of another. Whitened bytes that stay so are left alone.
fn reform_main(g: Geometry, form: u8, kind: u8, place: usize, page: &mut [u8])
    requires valid { Valid g }
    requires place_lt_pages { place < g.pages }
    requires page_len { length page.old ≡ page_size g }
    ensures { take g.main page.new ≡ formed kind place (formed form place (take g.main page.old)) }
{
    if stay_white(form, kind) {
        return;
    }
    form_main(g, form, place, page);
    form_main(g, kind, place, page);
}

// Puts the main bytes of a page that is given into the buffer, as they are stored.
fn put_given(g: Geometry, content: Content, place: usize, bytes: &[u8], page: &mut [u8])
    requires valid { Valid g }
    requires place_lt_pages { place < g.pages }
    requires place_value { is_given content.first content.count place ≡ true }
    requires bytes_len { length bytes.now ≡ content.count * g.main }
    requires page_len { length page.old ≡ page_size g }
    ensures { take g.main page.new ≡ formed content.kind place (given_main g content.first bytes.now place) }
{
    let main = g.main;
    let first = content.first;
    let at = (place - first) * main;
    let end = at + main;
    cells::copy(&bytes[at..end], &mut page[0..main]);
    form_main(g, content.kind, place, page);
}

// Puts FFh as main bytes into the buffer, as they are stored.
fn put_ones(g: Geometry, kind: u8, place: usize, page: &mut [u8])
    requires valid { Valid g }
    requires place_lt_pages { place < g.pages }
    requires page_len { length page.old ≡ page_size g }
    ensures { take g.main page.new ≡ formed kind place (replicate g.main 255) }
{
    let main = g.main;
    cells::erase_whole(&mut page[0..main]);
    form_main(g, kind, place, page);
}

// Reads the main bytes of a page that is kept into the buffer, and brings them into the form in which they are stored.
fn put_kept(
    from: Bus,
    g: Geometry,
    array: &mut [u8],
    register: &mut [u8],
    history: &mut [u8],
    mask: &[u8],
    fates: &[u32],
    place: usize,
    content: Content,
    page: &mut [u8],
) -> Done
    requires lent { Lent (setting g mask.now fates.now) (line from array.old register.old history.old) }
    requires place_lt_pages { place < g.pages }
    requires content_lt_blocks { content.old < g.blocks }
    requires page_len { length page.old ≡ page_size g }
    ensures reaches { Reaches (setting g mask.now fates.now) (main_read (setting g mask.now fates.now) place (kept content.old content.form)) (line from array.old register.old history.old) (line result.bus array.new register.new history.new) result.outcome }
    ensures page_after { is_passed result.outcome ≡ true → take g.main page.new ≡ formed content.kind place (main_of g array.old place (kept content.old content.form)) }
{
    let main = g.main;
    let row = geometry::row_of(g, content.old, place);
    let done = operations::read(
        from,
        g,
        array,
        register,
        history,
        mask,
        fates,
        row,
        0,
        &mut page[0..main],
    );
    reform_main(g, content.form, content.kind, place, page);
    done
}

// Puts the main bytes of a page into the buffer, as they are stored: those given, those of the old copy, or FFh.
pub fn put_main(
    from: Bus,
    g: Geometry,
    array: &mut [u8],
    register: &mut [u8],
    history: &mut [u8],
    mask: &[u8],
    fates: &[u32],
    place: usize,
    content: Content,
    bytes: &[u8],
    page: &mut [u8],
) -> Done
    requires lent { Lent (setting g mask.now fates.now) (line from array.old register.old history.old) }
    requires place_lt_pages { place < g.pages }
    requires page_len { length page.old ≡ page_size g }
    requires bytes_len { length bytes.now ≡ content.count * g.main }
    ensures reaches { Reaches (setting g mask.now fates.now) (main_read (setting g mask.now fates.now) place (data_source g content.old content.form content.first content.count bytes.now place)) (line from array.old register.old history.old) (line result.bus array.new register.new history.new) result.outcome }
    ensures page_after { is_passed result.outcome ≡ true → take g.main page.new ≡ formed content.kind place (main_of g array.old place (data_source g content.old content.form content.first content.count bytes.now place)) }
{
    if is_given(content, place) {
        put_given(g, content, place, bytes, page);
        return Done {
            bus: from,
            outcome: Outcome::Passed,
        };
    }
    let old = content.old;
    if old < g.blocks {
        return put_kept(
            from, g, array, register, history, mask, fates, place, content, page,
        );
    }
    put_ones(g, content.kind, place, page);
    Done {
        bus: from,
        outcome: Outcome::Passed,
    }
}
