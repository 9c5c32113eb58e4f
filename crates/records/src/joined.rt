// A window on the joined data of a chain that is accepted.
ghost use Rattle.std.specs.Prelude.{◌≡◌, ◌+◌, ◌≤◌, length};
ghost use Rattle.definitions.specs.Chain.{joined};
ghost use Rattle.chain.specs.Walk.{Walked};
ghost use Rattle.records.specs.Window.{overwritten, laid, ReadsOn};

use chain::{DataPosition, Place, Step, data_of, next_step};

// The bytes over `out` from `at` on, as far as out goes. By index: of what an iterator over `out` is given nothing is known here,
// and the library's copy would be memcpy, which the archive may not import.
pub fn copy_over(bytes: &[u8], out: &mut [u8], at: usize)
    requires { at ≤ length out.old }
    ensures { out.new ≡ overwritten out.old at bytes.now }
{
    let n = bytes.len().min(out.len() - at);
    for (i, byte) in bytes[..n].iter().enumerate() {
        out[at + i] = *byte;
    }
}

// What of a fragment's data, which stands at `position`, falls into the window from `from` on
pub fn lay(data: &[u8], position: DataPosition, from: DataPosition, out: &mut [u8])
    ensures { out.new ≡ laid out.old from.0 position.0 «data».now }
{
    let gap = position.0.saturating_sub(from.0);
    let skip = from.0.saturating_sub(position.0);
    if (data.len() as u64) < skip {
        return;
    }
    if (out.len() as u64) < gap {
        return;
    }
    let start = skip as usize;
    copy_over(&data[start..], out, gap as usize);
}

// The bytes of the joined data from `from` on, as far as `out` goes, by a walk from a place that is not behind them. Of each
// fragment only what falls into the window is read, and none behind it. What is given back is the place before the last one
// read: whoever reads on begins there. An accepted chain refuses nothing on the way, so each step may be unwrapped.
// `Walked` tells which chain, and is no bare fact, so no ghost field of the place can keep it.
pub fn window(file: &[u8], begin: Place, id: &[u8; 4], from: DataPosition, out: &mut [u8]) -> Place
    requires { (Walked id.now file.now begin) × (begin.position.0 ≤ from.0) }
    ensures { (w : Walked id.now file.now begin) → (out.new ≡ laid out.old from.0 0 (joined file.now w.blocks)) × ReadsOn id.now file.now w.blocks (from.0 + length out.old) result }
{
    let mut place = begin;
    while let Some(step) = next_step(file, &mut place, id).unwrap() {
        if let Step::OverFragment(fragment) = step {
            lay(
                data_of(file, fragment.block),
                fragment.before.position,
                from,
                out,
            );
            if place.position.is_behind(from, out.len() as u64) {
                return fragment.before;
            }
        }
    }
    place
}
