//! Pages by their distance from another.
ghost use Rattle.std.specs.Prelude.{◌≡◌, ◌+◌, ◌^◌, ◌<◌};

use gup_base::PageNo;

/// The page so many after this one; both are below 2^35.
pub fn page_behind(page: PageNo, k: u16) -> PageNo
    requires { page + k < 2 ^ 35 }
    ensures { result ≡ page + k }
{
    PageNo::new(page.get() + u64::from(k)).unwrap()
}
