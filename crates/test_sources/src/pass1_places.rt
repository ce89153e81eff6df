//! Where statements and literals are.
use crate::pass1_texts::placed;
use std::test::Fail;

#[rattlefmt::skip]
const PLACED: &[(&[u8], &str)] = &[
    (b"P CSECT\n USING P,15\n MVC 8(2,13),=C'AB'\n L 1,=F'1'\n LH 2,=H'2'\n A 1,=F'1'\n END\n", "0 0 0 6 10 14 18 =24,28,30, L32 S0"),
    (b"P CSECT\n USING P,15\n MVC 8(2,13),=C'AB'\n L 1,=F'1'\n LTORG\n LH 2,=H'2'\n A 1,=F'1'\n END\n", "0 0 0 6 16 22 26 30 =16,20, =32,36, L38 S0"),
    (b"P CSECT\n L 1,X\nD DSECT\nX DS F,C\nP CSECT\n LR 1,2\nD DSECT\n DS 0D,H\n END\n", "0 0 4 0,0,4 5 4 6 8,8,8 10 = L6 S0"),
    (b"P START 0\n LR 1,2\nP CSECT\n LR 1,2\n END\n", "0 0 2 2 4 = L4 S0"),
    (b"P CSECT\n DS XL3\n DS 0D\n DC X'01'\n LR 1,2\n DC 0F'1'\n DC C'A',F'1',X'2'\n END\n", "0 0 8 8 10 12 12,12,16,20 21 = L21 S0"),
    (b"P CSECT\n DC FL3'1'\n DC 3H'1,2'\n DC PL2'1',A(P)\n END\n", "0 0 4 16,16,20 24 = L24 S0"),
    (b"P CSECT\n B =F'1'\n BR =H'1'\n CLC =CL8'A',=2FL3'1,2'\n END\n", "0 0 4 6 12 =16,24,28,40, L42 S0"),
    (b"P CSECT\n L 1,=F'1'\n L 1,=F'1'\n LTORG\n L 1,=F'1'\n LTORG\n END\n", "0 0 4 8 12 16 20 =8, =16, = L20 S0"),
    (b"P CSECT\n LTORG\n LR 1,2\n LTORG\n END\n", "0 0 0 2 2 = = = L2 S0"),
    (b"P CSECT\n LR 1,2\n CLI =0F'1',=C'A'\n END\n", "0 0 2 6 =8,8, L9 S0"),
    (b"DFHEISTG DSECT\n DS 80X\nP CSECT\n END\n", "0 0 80 0 = L0 S80"),
    (b"DFHEISTG CSECT\n DS 80X\n END\n", "0 0 80 = L80 S0"),
    (b"D DSECT\n DS 4294967295XL8192\nA DS X\n DS 4294967295XL8192\nB DS X\nE EQU 1\n END\n", "0 0 35184372080640 35184372080641 70368744161281 70368744161282 70368744161282 = L0 S0"),
    (b"* NOTE\n TITLE ' A '\n PRINT NOGEN\nP CSECT X\n DFHREGS\n COPY DFHAID\nX EJECT\nX SPACE 2\nX EQU 5\n END P,5\n", "0 0 0 0 0 0 0 0 0 = L0 S0"),
    (b" COPY OTHER\nX DROP\nX USING 5,5\nX END\n", "0 0 0 0 = L0 S0"),
    (b"P CSECT\nNOP NOP 0\n NOPR 0\n BNP P\n BNZ P\n EX 1,P\n MVC P,P\n PACK P,P\n END\n", "0 0 4 6 10 14 18 24 30 = L30 S0"),
    (b"P CSECT\n L 1),=F'1'\n END\n", "0 0 4 =8, L12 S0"),
    (b"P CSECT\n DS F'1'\n DC C''''\n DC CL2'ABC'\n DC B'101'\n END\n", "0 0 4 5 7 8 = L8 S0"),
    (b" END\n", "0 = L0 S0"),
];

#[test]
fn statements_and_literals_stand_there(rt: HostRuntime) -> Result<(), Fail> {
    for &(source, places) in PLACED {
        let found = placed(rt.alloc(), source)?;
        assert!(rt; found.as_str() == places, "{}", found.as_str());
    }
    Ok(())
}
