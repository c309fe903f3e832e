// Whether places of the books are free: zero, many in one look. [B2, B3, B4]
ghost use Rattle.std.specs.Prelude.{◌≡◌, ◌+◌, ◌-◌, ◌*◌, ◌≤◌, length};
ghost use Rattle.books.specs.Packed.{row_places, place_of, free_from};

// Whether the places of eight bytes from place i on are free, of n from at.
fn few_free(books: &[u8], at: usize, n: usize, i: usize) -> bool
    requires { at + 8 * n ≤ length books.now }
    ensures { result ≡ free_from (place_of 8 at books.now) (n - i) i }
{
    for k in i..n {
        let w = octets::u64_at(books, at + 8 * k);
        if w != 0 {
            return false;
        }
    }
    true
}

// The same of four of them, in one look.
fn four_free(books: &[u8], at: usize, i: usize) -> bool
    requires { at + 8 * (i + 4) ≤ length books.now }
    ensures { result ≡ free_from (place_of 8 at books.now) 4 i }
{
    let a = at + 8 * i;
    (octets::u64_at(books, a) == 0)
        & (octets::u64_at(books, a + 8) == 0)
        & (octets::u64_at(books, a + 16) == 0)
        & (octets::u64_at(books, a + 24) == 0)
}

// The same of eight of them.
fn eight_free(books: &[u8], at: usize, i: usize) -> bool
    requires { at + 8 * (i + 8) ≤ length books.now }
    ensures { result ≡ free_from (place_of 8 at books.now) 8 i }
{
    four_free(books, at, i) & four_free(books, at, i + 4)
}

// The same of all of them: eight at a time, and then the few that are left.
pub fn free(books: &[u8], at: usize, n: usize, i: usize) -> bool
    requires { (at + 8 * n ≤ length books.now) × (i ≤ n) }
    ensures { result ≡ free_from (place_of 8 at books.now) (n - i) i }
{
    let mut k = i;
    while 8 <= n - k {
        if !eight_free(books, at, k) {
            return false;
        }
        k += 8;
    }
    few_free(books, at, n, k)
}

// The same for codes or filters, places of four bytes: two at a time.
pub fn free_rows(books: &[u8], at: usize, i: usize) -> bool
    requires { (at + 4 * row_places ≤ length books.now) × (i ≤ row_places) }
    ensures { result ≡ free_from (place_of 4 at books.now) (row_places - i) i }
{
    if i % 2 == 1 {
        let w = octets::u32_at(books, at + 4 * i);
        if w != 0 {
            return false;
        }
        return free(books, at, books::ROW_PLACES / 2, (i + 1) / 2);
    }
    free(books, at, books::ROW_PLACES / 2, i / 2)
}
