// A lent buffer that text is written to, one piece behind the other. What finds no room is left out, so a page that is full may be cut.
ghost use Rattle.std.specs.Prelude.{◌≡◌, ◌≤◌, length};

#[derive(Drop)]
pub struct Page<'a> {
    out: &'a mut [u8],
    at: usize,
}

impl<'a> Page<'a> {
    ghost use Rattle.std.specs.Prelude.{[], ◌∷◌, ◌++◌, take};
    ghost use Rattle.text.specs.Buffer.{decimal, hexadecimal};
    ghost use Rattle.text.specs.Page.{Wrote, Longer};

    pub fn new(out: &'a mut [u8]) -> Page<'a>
        ensures same_reference { result.out.ghost_name ≡ out.entry.ghost_name }
        ensures same_bytes { result.out.now ≡ out.old }
        ensures start { result.at ≡ 0 }
    {
        Page { out, at: 0 }
    }

    // A page on which what stands before `at` is written already.
    pub fn behind(out: &'a mut [u8], at: usize) -> Page<'a>
        ensures same_reference { result.out.ghost_name ≡ out.entry.ghost_name }
        ensures same_bytes { result.out.now ≡ out.old }
        ensures start { result.at ≡ at }
    {
        Page { out, at }
    }

    // The index behind what is written.
    pub fn end(&self) -> usize
        ensures { result ≡ self.now.at }
    {
        self.at
    }

    // What stands on the page so far, of what there is room for.
    pub fn written(&self) -> &[u8]
        ensures { result.now ≡ take self.now.at self.now.out.now }
    {
        &self.out[..self.at.min(self.out.len())]
    }

    #[tactic(auto, using(crate::proofs::Pages::written_one, crate::proofs::Pages::written_outside))]
    pub fn letter(&mut self, b: u8)
        ensures text { Wrote self.old (b ∷ []) self.new }
        ensures longer { Longer self.old self.new }
    {
        if self.at < self.out.len() {
            self.out[self.at] = b;
            self.at += 1;
        }
    }

    pub fn text(&mut self, s: &[u8])
        ensures text { Wrote self.old s.now self.new }
        ensures longer { Longer self.old self.new }
    {
        for b in s {
            self.letter(*b);
        }
    }

    pub fn decimal(&mut self, n: u64)
        ensures text { Wrote self.old (decimal n) self.new }
        ensures longer { Longer self.old self.new }
    {
        let mut digits = [0u8; 20];
        let k = io::decimal(n, &mut digits);
        self.text(&digits[..k]);
    }

    // In lower case and with no zero in front.
    pub fn hexadecimal(&mut self, n: u64)
        ensures text { Wrote self.old (hexadecimal n) self.new }
        ensures longer { Longer self.old self.new }
    {
        let mut digits = [0u8; 16];
        let k = io::hex(n, 0, &mut digits);
        self.text(&digits[..k]);
    }

    // A number in decimal, with what comes before and after it.
    #[tactic(auto, using(crate::proofs::Pages::pages))]
    pub fn number(&mut self, before: &[u8], n: u64, after: &[u8])
        ensures text { Wrote self.old (before.now ++ decimal n ++ after.now) self.new }
        ensures longer { Longer self.old self.new }
    {
        self.text(before);
        self.decimal(n);
        self.text(after);
    }
}

// How many bytes at the start of `out` `write` writes. That the page is still one over `out` is not known of what `write` leaves, so its
// end is bounded.
pub fn fill<F: FnOnce(&mut Page)>(out: &mut [u8], write: F) -> usize
    requires { F.IsAlwaysCallable write }
    ensures { result ≤ length out.old }
{
    let room = out.len();
    let mut page = Page::new(out);
    write(&mut page);
    page.end().min(room)
}
