// The one list of the operators, in the order of G.191: the variant, the function of its formula, the C name, the widths
// of the arguments and of the result, and whether it flags where it saturates. A caller names the macro that takes the
// rows, and what that macro is to have before them.

#[macro_export]
macro_rules! operator_rows {
    ($rows:ident!($($before:tt)*)) => {
        $rows! {
            [$($before)*]
            Add add b"add" [W16 W16] W16 loud;
            Sub sub b"sub" [W16 W16] W16 loud;
            AbsS abs_s b"abs_s" [W16] W16 quiet;
            Negate negate b"negate" [W16] W16 quiet;
            Mult mult b"mult" [W16 W16] W16 loud;
            MultR mult_r b"mult_r" [W16 W16] W16 loud;
            Shl shl b"shl" [W16 W16] W16 loud;
            Shr shr b"shr" [W16 W16] W16 loud;
            ShrR shr_r b"shr_r" [W16 W16] W16 loud;
            LAdd l_add b"L_add" [W32 W32] W32 loud;
            LSub l_sub b"L_sub" [W32 W32] W32 loud;
            LAbs l_abs b"L_abs" [W32] W32 quiet;
            LNegate l_negate b"L_negate" [W32] W32 quiet;
            LMult l_mult b"L_mult" [W16 W16] W32 loud;
            LMac l_mac b"L_mac" [W32 W16 W16] W32 loud;
            LMsu l_msu b"L_msu" [W32 W16 W16] W32 loud;
            LShl l_shl b"L_shl" [W32 W16] W32 loud;
            LShr l_shr b"L_shr" [W32 W16] W32 loud;
            LShrR l_shr_r b"L_shr_r" [W32 W16] W32 loud;
            ExtractH extract_h b"extract_h" [W32] W16 loud;
            ExtractL extract_l b"extract_l" [W32] W16 loud;
            LDepositH l_deposit_h b"L_deposit_h" [W16] W32 loud;
            LDepositL l_deposit_l b"L_deposit_l" [W16] W32 loud;
            Round round b"round" [W32] W16 loud;
            MacR mac_r b"mac_r" [W32 W16 W16] W16 loud;
            MsuR msu_r b"msu_r" [W32 W16 W16] W16 loud;
            NormS norm_s b"norm_s" [W16] W16 loud;
            NormL norm_l b"norm_l" [W32] W16 loud;
            DivS div_s b"div_s" [W16 W16] W16 loud;
            SMax greater b"s_max" [W16 W16] W16 loud;
            SMin lesser b"s_min" [W16 W16] W16 loud;
            LMax greater b"L_max" [W32 W32] W32 loud;
            LMin lesser b"L_min" [W32 W32] W32 loud;
            LMult0 l_mult0 b"L_mult0" [W16 W16] W32 loud;
            LMac0 l_mac0 b"L_mac0" [W32 W16 W16] W32 loud;
            LMsu0 l_msu0 b"L_msu0" [W32 W16 W16] W32 loud;
        }
    };
}
