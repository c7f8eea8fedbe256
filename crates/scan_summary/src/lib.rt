// What the pages of a block tell, one after the other.
#![tactic(auto)]

ghost use Rattle.std.specs.Prelude.{◌≡◌, max};
ghost use Rattle.pages.specs.Layout.{Sized, label, label_of};
ghost use Rattle.copies.specs.Blocks.{agrees};
ghost use Rattle.scan_summary.specs.Quick.{marking};
ghost use Rattle.scan_summary.specs.Summary.{blank_summary, marked_by, broken, whole_step, stepped, says_complete, says_number};

// How much of each block a scan reads: every page, or the first and the last page, the mark byte of page 1, and the other pages
// where these two are whole.
#[derive(Clone, Copy)]
pub enum Depth {
    Full,
    Quick,
}

// What the pages of a block told so far; kind, logical and number are those of page 0.
#[derive(Clone, Copy)]
pub struct Summary {
    pub marked: bool,
    pub complete: bool,
    pub kind: usize,
    pub logical: usize,
    pub number: u64,
    // Whether a page was whole, and the greatest number on one, 0 if none was.
    pub any: bool,
    pub greatest: u64,
}

// Whether a page bears a factory mark, where it is one of the first two.
fn marked_by(marked: bool, page: &[u8], main: usize, place: usize) -> bool
    requires { Sized main page.now }
    ensures { result ≡ marked_by main place page.now marked }
{
    marked || (place < 2 && page[main] != 255)
}

impl Summary {
    // Before the first page.
    pub fn blank() -> Self
        ensures { result ≡ blank_summary }
    {
        Self {
            marked: false,
            complete: false,
            kind: 0,
            logical: 0,
            number: 0,
            any: false,
            greatest: 0,
        }
    }

    // Whether a whole page after the first agrees with the first.
    fn agrees(self, page: &[u8], main: usize, place: usize) -> bool
        requires { Sized main page.now }
        ensures { result ≡ agrees (label self.kind self.logical 0 self.number) place (label_of main page.now) }
    {
        usize::from(pages::kind_of(page, main)) == self.kind
            && pages::logical_of(page, main) == self.logical
            && pages::number_of(page, main) == self.number
            && pages::place_of(page, main) == place
    }

    // After a page that is not whole.
    fn broken(mut self, marked: bool) -> Self
        ensures { result ≡ broken marked self }
    {
        self.marked = marked;
        self.complete = false;
        self
    }

    // After a whole page.
    fn whole_step(mut self, marked: bool, page: &[u8], main: usize, place: usize) -> Self
        requires { Sized main page.now }
        ensures { result ≡ whole_step marked place (label_of main page.now) self }
    {
        let number = pages::number_of(page, main);
        self.marked = marked;
        self.any = true;
        self.greatest = self.greatest.max(number);
        if place == 0 {
            self.kind = usize::from(pages::kind_of(page, main));
            self.logical = pages::logical_of(page, main);
            self.number = number;
            self.complete = pages::place_of(page, main) == 0;
        } else if !self.agrees(page, main, place) {
            self.complete = false;
        }
        self
    }

    // After one more page of the block, read in order.
    pub fn step(self, page: &[u8], main: usize, place: usize) -> Self
        requires { Sized main page.now }
        ensures { result ≡ stepped main place page.now self }
    {
        let marked = marked_by(self.marked, page, main, place);
        if pages::is_whole(page, main) {
            return self.whole_step(marked, page, main, place);
        }
        self.broken(marked)
    }

    // After the mark byte of a page alone.
    pub fn mark(mut self, byte: u8) -> Self
        ensures { result ≡ marking byte self }
    {
        if byte != 255 {
            self.marked = true;
        }
        self
    }

    // Whether a block with this summary of all pages is complete.
    pub fn is_complete(self) -> bool
        ensures { result ≡ says_complete self }
    {
        !self.marked && self.complete
    }

    // Whether a block with this summary of all pages has no factory mark and a whole page.
    pub fn has_number(self) -> bool
        ensures { result ≡ says_number self }
    {
        !self.marked && self.any
    }
}
