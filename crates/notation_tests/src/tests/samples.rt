//! Games drawn at random, beside texts of another program.
use rand_pcg::Lcg64Xsh32;
use sample_games::sample;
use std::test::Fail;

// The texts were worked out from the format by another program, with its own generator and moves.
const FIRST: &str = "[Event \"Rated sample game\"]\n[Site \"https://lichess.org/s0000000\"]\n\
    [White \"w0\"]\n[Black \"b0\"]\n[Result \"1/2-1/2\"]\n[UTCDate \"2020.03.15\"]\n\
    [WhiteElo \"1172\"]\n[BlackElo \"2689\"]\n[TimeControl \"600+0\"]\n\n\
    1. c3 f5 2. b3 Nh6 3. e4 a5 4. Qc2 g6 5. g3 Rg8 6. Kd1 Nf7 7. b4 h6 8. b5 c6 9. d4 Rg7 \
    10. Ne2 Ra6 11. g4 Ra8 12. Nf4 Ne5 13. b6 Qxb6 14. g5 h5 15. Qb3 Rf7 16. Qa3 Nd3 17. Bd2 Qc7 \
    18. Qxe7+ Bxe7 19. Ng2 d6 20. Be2 1/2-1/2\n\n";

const LATER: &str = "[Event \"Rated sample game\"]\n[Site \"https://lichess.org/s0131071\"]\n\
    [White \"w71\"]\n[Black \"b71\"]\n[Result \"1/2-1/2\"]\n[UTCDate \"2020.03.15\"]\n\
    [WhiteElo \"1143\"]\n[BlackElo \"1783\"]\n[TimeControl \"180+2\"]\n\n\
    1. c4 Nh6 2. b3 a6 3. h3 c5 4. f3 Qb6 5. Rh2 Qa7 6. d3 d5 7. cxd5 Kd8 8. Ba3 Nc6 9. Nc3 e6 \
    10. Kf2 Ng4+ 11. Ke1 1/2-1/2\n\n";

#[test]
fn games_are_drawn_one_behind_another(rt: HostRuntime) -> Result<(), Fail> {
    let mut draws = Lcg64Xsh32::new(7, 1);
    for (index, expected) in [(0, FIRST), (131_071, LATER)] {
        let text = sample(rt.alloc(), index, &mut draws)?;
        assert!(rt; text.as_slice() == expected.as_bytes());
    }
    Ok(())
}
