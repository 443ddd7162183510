// The S-box on eight planes of bits.
ghost use Rattle.std.specs.Prelude.{◌≡◌, ℕ, ◌<◌};
ghost use Rattle.eleos_base.specs.AesState.{sub_bytes};
ghost use Rattle.eleos_base.specs.SBox.{s_box};
ghost use Rattle.eleos_lanes.specs.Planes.{block_at, byte_of, lane_bit};

use crate::gate::{and, complement, xor};
use std::simd::prelude::*;

/// A plane for each bit of a byte, lowest first.
type Planes = (u8x16, u8x16, u8x16, u8x16, u8x16, u8x16, u8x16, u8x16);

/// The S-box: the inverse in a tower of quadratic extensions and the affine transformation, gate
/// after gate, with no table.
#[inline(always)]
fn circuit(
    x0: u8x16,
    x1: u8x16,
    x2: u8x16,
    x3: u8x16,
    x4: u8x16,
    x5: u8x16,
    x6: u8x16,
    x7: u8x16,
) -> Planes
    ensures { (i j : ℕ) → i < 16 → j < 8
        → byte_of (lane_bit result.0 i j) (lane_bit result.1 i j) (lane_bit result.2 i j)
        (lane_bit result.3 i j) (lane_bit result.4 i j) (lane_bit result.5 i j)
        (lane_bit result.6 i j) (lane_bit result.7 i j)
        ≡ s_box (byte_of (lane_bit x0 i j) (lane_bit x1 i j) (lane_bit x2 i j) (lane_bit x3 i j)
        (lane_bit x4 i j) (lane_bit x5 i j) (lane_bit x6 i j) (lane_bit x7 i j)) }
{
    let t0 = xor(x4, x7);
    let t1 = xor(x5, x6);
    let t2 = xor(x1, x3);
    let t3 = xor(t1, x0);
    let t4 = xor(t2, x2);
    let t5 = xor(t0, t2);
    let t6 = xor(t3, x1);
    let t7 = xor(t4, x6);
    let t8 = xor(t0, x2);
    let t9 = xor(x2, x7);
    let t10 = xor(t6, t9);
    let t11 = xor(t8, x1);
    let t12 = xor(x2, x4);
    let t13 = xor(x1, x7);
    let t14 = xor(t4, x5);
    let t15 = xor(t7, x0);
    let t16 = xor(t5, x0);
    let t17 = xor(t8, x5);
    let t18 = xor(t3, x7);
    let t19 = xor(t1, t5);
    let t20 = xor(t3, x4);
    let t21 = and(t20, x0);
    let t22 = and(t10, t16);
    let t23 = and(t11, t5);
    let t24 = and(t18, t15);
    let t25 = and(t6, t3);
    let t26 = and(t13, t14);
    let t27 = and(t0, t7);
    let t28 = and(t9, t19);
    let t29 = and(t12, t17);
    let t30 = xor(t14, t27);
    let t31 = xor(t23, t27);
    let t32 = xor(t26, t30);
    let t33 = xor(t13, t25);
    let t34 = xor(t9, t21);
    let t35 = xor(t24, x7);
    let t36 = xor(t22, t31);
    let t37 = xor(t28, t31);
    let t38 = xor(t32, t35);
    let t39 = xor(t7, t29);
    let t40 = xor(t0, t39);
    let t41 = xor(t36, t40);
    let t42 = xor(t19, t34);
    let t43 = xor(t28, t38);
    let t44 = xor(t37, t42);
    let t45 = xor(t29, t32);
    let t46 = xor(t33, t45);
    let t47 = and(t44, t43);
    let t48 = and(t44, t46);
    let t49 = and(t41, t46);
    let t50 = and(t41, t43);
    let t51 = and(t50, t46);
    let t52 = and(t47, t46);
    let t53 = and(t44, t41);
    let t54 = and(t53, t46);
    let t55 = and(t53, t43);
    let t56 = xor(t44, t49);
    let t57 = xor(t43, t49);
    let t58 = xor(t48, t57);
    let t59 = xor(t50, t56);
    let t60 = xor(t47, t59);
    let t61 = xor(t52, t58);
    let t62 = xor(t55, t59);
    let t63 = xor(t41, t62);
    let t64 = xor(t47, t58);
    let t65 = xor(t54, t60);
    let t66 = xor(t46, t61);
    let t67 = xor(t51, t64);
    let t68 = xor(t67, t65);
    let t69 = xor(t66, t63);
    let t70 = xor(t67, t66);
    let t71 = xor(t65, t63);
    let t72 = xor(t68, t69);
    let t73 = and(x0, t67);
    let t74 = and(t16, t66);
    let t75 = and(t5, t70);
    let t76 = and(t15, t65);
    let t77 = and(t3, t63);
    let t78 = and(t14, t71);
    let t79 = and(t7, t68);
    let t80 = and(t19, t69);
    let t81 = and(t17, t72);
    let t82 = and(t20, t67);
    let t83 = and(t10, t66);
    let t84 = and(t11, t70);
    let t85 = and(t18, t65);
    let t86 = and(t6, t63);
    let t87 = and(t13, t71);
    let t88 = and(t0, t68);
    let t89 = and(t9, t69);
    let t90 = and(t12, t72);
    let t91 = xor(t88, t90);
    let t92 = xor(t83, t91);
    let t93 = xor(t84, t92);
    let t94 = xor(t73, t87);
    let t95 = xor(t75, t94);
    let t96 = xor(t77, t78);
    let t97 = xor(t74, t93);
    let t98 = xor(t85, t95);
    let t99 = xor(t79, t81);
    let t100 = xor(t80, t98);
    let t101 = xor(t75, t97);
    let t102 = xor(t76, t91);
    let t103 = xor(t86, t102);
    let t104 = xor(t82, t92);
    let t105 = xor(t100, t104);
    let t106 = xor(t88, t100);
    let t107 = xor(t73, t97);
    let t108 = xor(t81, t87);
    let t109 = xor(t93, t99);
    let t110 = xor(t77, t108);
    let t111 = xor(t76, t77);
    let t112 = xor(t79, t106);
    let t113 = xor(t99, t101);
    let t114 = xor(t89, t112);
    let t115 = xor(t107, t111);
    let t116 = xor(t78, t103);
    let t117 = xor(t96, t109);
    let t118 = xor(t81, t96);
    let t119 = xor(t105, t118);
    let t120 = xor(t80, t103);
    let t121 = xor(t110, t120);
    let t122 = xor(t96, t101);
    let t123 = xor(t95, t116);
    let y0 = complement(t123);
    let y1 = complement(t121);
    let y5 = complement(t114);
    let y6 = complement(t113);
    (y0, y1, t119, t115, t122, y5, y6, t117)
}

/// Each byte of each block by the S-box.
#[inline(always)]
pub(crate) fn sub_planes(x: [u8x16; 8]) -> [u8x16; 8]
    ensures { (b : ℕ) → b < 8 → block_at result b ≡ sub_bytes (block_at x b) }
{
    let [x0, x1, x2, x3, x4, x5, x6, x7] = x;
    let (y0, y1, y2, y3, y4, y5, y6, y7) = circuit(x0, x1, x2, x3, x4, x5, x6, x7);
    [y0, y1, y2, y3, y4, y5, y6, y7]
}
