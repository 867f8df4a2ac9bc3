// Parts of a store: where the content of an object or an FDT stands.
ghost use Rattle.std.specs.Prelude.{◌≡◌};
ghost use Rattle.lifecycle.specs.Parts.{shares as parts_shares, past_store};

#[repr(C)]
#[derive(Clone, Copy)]
pub struct Part {
    pub start: u64,
    pub size: u64,
}

// Do two parts share a byte? Only differences are formed, so no number passes 64 bits.
pub fn shares(a: Part, b: Part) -> bool
    ensures { result ≡ parts_shares a b }
{
    if a.size == 0 {
        return false;
    }
    if b.size == 0 {
        return false;
    }
    if a.start <= b.start {
        return b.start - a.start < a.size;
    }
    a.start - b.start < b.size
}

// Does a part end past a store of this length?
pub fn ends_past(store: u64, c: Part) -> bool
    ensures { result ≡ past_store store c }
{
    if store < c.start {
        return true;
    }
    store - c.start < c.size
}
