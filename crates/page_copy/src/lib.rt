// The page call's bytes, copied for callers outside, who cannot take a part of a slice; exported for the tests alone.
#![tactic(auto)]

ghost use Rattle.std.specs.Prelude.{◌≡◌};
ghost use Rattle.std.proofs.lemmas.List.Edits.{sets};
ghost use Rattle.base.specs.Overlay.{Wrote};
ghost use Rattle.case.specs.Case.{case_of};
ghost use Rattle.address.specs.Call.{page_bytes};

// The bytes of an address's page over the lent buffer, as far as it goes, and how many they are.
#[unsafe(no_mangle)]
pub extern "C" fn test_page_copy<'a>(
    sheet: &[u8],
    image: &'a [u8],
    pagefile: &'a [u8],
    address: u64,
    out: &mut [u8],
) -> usize
    ensures { Wrote out.old 0 (page_bytes (case_of sheet.now image.now pagefile.now) address) result out.new }
{
    let page = address::page_of(sheet, image, pagefile, address);
    copy(page, out);
    page.len()
}

fn copy(page: &[u8], out: &mut [u8])
    ensures { out.new ≡ sets out.old 0 page.now }
{
    let n = page.len().min(out.len());
    // By index: `copy_from_slice` would need memmove of the C library.
    for i in 0..n {
        out[i] = page[i];
    }
}
