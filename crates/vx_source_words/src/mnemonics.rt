//! The mnemonics of instructions (JVMS 6.5).

ghost use Rattle.std.specs.Prelude.{◌≡◌, ◌<◌};
ghost use Rattle.std.specs.Bool.{OnTrue};
ghost use Rattle.std.specs.List.{position_from};
ghost use Rattle.std.specs.Str.{bytes_eq};
ghost use Rattle.vx_words.specs.Lines.{words};
ghost use Rattle.vx_source_words.specs.Mnemonics.{names, is_assembled, assembled, opcode_of};

use vx_words::next_word;

// The opcodes that the assembler tells from others.
pub const SIPUSH: u8 = 0x11;

pub const LDC: u8 = 0x12;

pub const LDC_W: u8 = 0x13;

pub const LDC2_W: u8 = 0x14;

pub const TABLESWITCH: u8 = 0xaa;

pub const LOOKUPSWITCH: u8 = 0xab;

pub const PUTFIELD: u8 = 0xb5;

pub const INVOKESPECIAL: u8 = 0xb7;

pub const INVOKESTATIC: u8 = 0xb8;

pub const INVOKEINTERFACE: u8 = 0xb9;

pub const NEW: u8 = 0xbb;

pub const ANEWARRAY: u8 = 0xbd;

pub const WIDE: u8 = 0xc4;

pub const GOTO_W: u8 = 0xc8;

/// The mnemonics, by ascending opcode.
#[tactic(auto, unfolding(crate::specs::Mnemonics::names))]
fn names() -> &'static [u8]
    ensures { result.now ≡ names }
{
    b"nop aconst_null iconst_m1 iconst_0 iconst_1 iconst_2 iconst_3 iconst_4 iconst_5 lconst_0 lconst_1 \
      fconst_0 fconst_1 fconst_2 dconst_0 dconst_1 bipush sipush ldc ldc_w ldc2_w iload lload fload dload \
      aload iload_0 iload_1 iload_2 iload_3 lload_0 lload_1 lload_2 lload_3 fload_0 fload_1 fload_2 \
      fload_3 dload_0 dload_1 dload_2 dload_3 aload_0 aload_1 aload_2 aload_3 iaload laload faload daload \
      aaload baload caload saload istore lstore fstore dstore astore istore_0 istore_1 istore_2 istore_3 \
      lstore_0 lstore_1 lstore_2 lstore_3 fstore_0 fstore_1 fstore_2 fstore_3 dstore_0 dstore_1 dstore_2 \
      dstore_3 astore_0 astore_1 astore_2 astore_3 iastore lastore fastore dastore aastore bastore \
      castore sastore pop pop2 dup dup_x1 dup_x2 dup2 dup2_x1 dup2_x2 swap iadd ladd fadd dadd isub lsub \
      fsub dsub imul lmul fmul dmul idiv ldiv fdiv ddiv irem lrem frem drem ineg lneg fneg dneg ishl lshl \
      ishr lshr iushr lushr iand land ior lor ixor lxor iinc i2l i2f i2d l2i l2f l2d f2i f2l f2d d2i d2l \
      d2f i2b i2c i2s lcmp fcmpl fcmpg dcmpl dcmpg ifeq ifne iflt ifge ifgt ifle if_icmpeq if_icmpne \
      if_icmplt if_icmpge if_icmpgt if_icmple if_acmpeq if_acmpne goto jsr ret tableswitch lookupswitch \
      ireturn lreturn freturn dreturn areturn return getstatic putstatic getfield putfield invokevirtual \
      invokespecial invokestatic invokeinterface invokedynamic new newarray anewarray arraylength athrow \
      checkcast instanceof monitorenter monitorexit wide multianewarray ifnull ifnonnull goto_w jsr_w"
}

/// The place of a word among some.
fn place_among(names: &[u8], word: &[u8]) -> Option<usize>
    ensures { result ≡ position_from (λ name. bytes_eq name word.now) 0 (words names.now) }
{
    let mut rest = names;
    let mut place = 0;
    while let Some((name, behind)) = next_word(rest) {
        if name == word {
            return Some(place);
        }
        place += 1;
        rest = behind;
    }
    None
}

#[tactic(auto, unfolding(crate::specs::Mnemonics::is_assembled))]
fn is_assembled(place: usize) -> bool
    ensures value { result ≡ is_assembled place }
    ensures few { OnTrue result (place < 256) }
{
    matches!(
        place,
        0x00..=0x16 | 0x19..=0x37 | 0x3a..=0xa7 | 0xaa..=0xb9 | 0xbb..=0xc3 | 0xc5..=0xc8
    )
}

/// An opcode, where a source may have it.
fn assembled(opcode: usize) -> Option<u8>
    ensures { result ≡ assembled opcode }
{
    if is_assembled(opcode) {
        Some(opcode as u8)
    } else {
        None
    }
}

/// The opcode of a mnemonic that a source may have.
#[tactic(auto, unfolding(crate::specs::Mnemonics::opcode_of))]
pub fn opcode_of(word: &[u8]) -> Option<u8>
    ensures { result ≡ opcode_of word.now }
{
    match place_among(names(), word) {
        None => None,
        Some(place) => assembled(place),
    }
}
