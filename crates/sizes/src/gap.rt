// Closing the gap that an element leaves in an array of which only the front is in use.
ghost use Rattle.std.specs.Prelude.{◌≡◌, ◌<◌, ◌≤◌, length};
ghost use Rattle.sizes.specs.Words.{shut};

// The element at `at` goes: the later ones move up, and `blank` comes in at the end. Past the end there is no element, and nothing changes.
pub fn close_gap<T: Copy>(items: &mut [T], at: usize, blank: T)
    ensures inside { at < length items.old → items.new ≡ shut blank items.old at }
    ensures outside { length items.old ≤ at → items.new ≡ items.old }
{
    if at < items.len() {
        let last = items.len() - 1;
        items.copy_within(at + 1.., at);
        items[last] = blank;
    }
}
