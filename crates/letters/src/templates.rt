// The templates of the grammar, one for each form of an operation.
ghost use Rattle.std.specs.Prelude.{◌≡◌, ◌<◌};
ghost use Rattle.grammar.specs.Grammar.{pattern_count};
ghost use Rattle.letters.specs.Templates.{IsTemplate};

// Patterns that there are.
pub const PATTERNS: usize = 18;

// The mark is the place of a byte of the mnemonic that tells it from the others.
#[derive(Clone, Copy)]
pub struct Template {
    pub text: &'static [u8],
    pub mark: usize,
}

fn made(text: &'static [u8], mark: usize) -> Template
    ensures { (result.text.now ≡ text.now) × (result.mark ≡ mark) }
{
    Template { text, mark }
}

pub fn template_at(pattern: usize) -> Template
    requires { pattern < pattern_count }
    ensures { IsTemplate pattern result }
{
    match pattern {
        0 => made(b"CADD Zd.t, Zd.t, Zm.t, #s", 1),
        1 => made(b"CMLA Zd.t, Zn.t, Zm.t, #r", 1),
        2 => made(b"CMLA Zd.H, Zn.H, Zl.H[j], #r", 1),
        3 => made(b"CMLA Zd.S, Zn.S, Zh.S[k], #r", 1),
        4 => made(b"SQCADD Zd.t, Zd.t, Zm.t, #s", 2),
        5 => made(b"SQRDCMLAH Zd.t, Zn.t, Zm.t, #r", 4),
        6 => made(b"SQRDCMLAH Zd.H, Zn.H, Zl.H[j], #r", 4),
        7 => made(b"SQRDCMLAH Zd.S, Zn.S, Zh.S[k], #r", 4),
        8 => made(b"SQRDMLAH Hd, Hn, Vh.H[i]", 6),
        9 => made(b"SQRDMLAH Sd, Sn, Vm.S[j]", 6),
        10 => made(b"SQRDMLAH Vd.qH, Vn.qH, Vh.H[i]", 6),
        11 => made(b"SQRDMLAH Vd.pS, Vn.pS, Vm.S[j]", 6),
        12 => made(b"SQRDMLSH Hd, Hn, Vh.H[i]", 6),
        13 => made(b"SQRDMLSH Sd, Sn, Vm.S[j]", 6),
        14 => made(b"SQRDMLSH Vd.qH, Vn.qH, Vh.H[i]", 6),
        15 => made(b"SQRDMLSH Vd.pS, Vn.pS, Vm.S[j]", 6),
        16 => made(b"SQDMULH { Za.t-Zb.t }, { Za.t-Zb.t }, Zh.t", 2),
        _ => made(b"SQDMULH { Ze.t-Zf.t }, { Ze.t-Zf.t }, Zh.t", 2),
    }
}
