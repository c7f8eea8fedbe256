// A test load that can be repeated: draws from a 32-bit seed, and the requests that they make.
#![tactic(auto)]

ghost use Rattle.std.specs.Prelude.{◌≡◌, ◌<◌, true};
ghost use Rattle.geometry.specs.Limits.{page_count};
ghost use Rattle.test_load.specs.Draws.{drawn};
ghost use Rattle.test_load.specs.Requests.{request_from};

#[derive(Clone, Copy, Debug, PartialEq, Eq)]
pub enum Request {
    // Logical block.
    Erase(usize),
    // Logical block and page.
    Read(usize, usize),
    // Logical block, page, and the byte that fills the page.
    Write(usize, usize, u8),
}

// A request, and the draw that the next one follows.
#[derive(Clone, Copy, Debug, PartialEq, Eq)]
pub struct Chosen {
    pub request: Request,
    pub last: u32,
}

// The draw after another: shifted left by 13, right by 17, left by 5, with an exclusive or after each shift.
#[tactic(auto, unfolding(crate::specs::Draws::drawn))]
pub fn draw(last: u32) -> u32
    ensures { result ≡ drawn last }
{
    let a = last ^ (last << 13);
    let b = a ^ (a >> 17);
    b ^ (b << 5)
}

// The next request of the load on a chip with this many logical blocks and pages a block.
#[tactic(auto, unfolding(crate::specs::Requests::request_from))]
pub fn choose(last: u32, logical: usize, pages: usize) -> Chosen
    requires logical_nonzero { 0 < logical }
    requires pages_value { page_count pages ≡ true }
    ensures { result ≡ request_from last logical pages }
{
    let kind = draw(last);
    let place = draw(kind);
    let block = place as usize % logical;
    if kind & 7 == 0 {
        return Chosen {
            request: Request::Erase(block),
            last: place,
        };
    }
    let third = draw(place);
    // A mask is faster than the remainder by a power of two that the code does not know.
    let page = third as usize & (pages - 1);
    let byte = (third >> 24) as u8;
    let request = if kind & 7 < 4 {
        Request::Read(block, page)
    } else {
        Request::Write(block, page, byte)
    };
    Chosen {
        request,
        last: third,
    }
}
