//! Passwords and secrets.
use super::parts;
use dav_access::matches_secret;
use std::test::Fail;

// A secret and a password, and whether they belong together: by the specification of SHA-crypt, and
// by crypt(3) and `openssl passwd -5`.
const ROWS: &str = "\
# the vectors of the specification of SHA-crypt, but for the one of 123,456 rounds, which takes a test too long
$5$saltstring$5B8vYYiY.CVt1RlTTf8KbXBH3hsxY/GNooZaBBGWEc5 | Hello world! -> yes
$5$rounds=10000$saltstringsaltst$3xv.VbSHBb41AL9AvLeujZkZRBAwqFMz2.opqey6IcA | Hello world! -> yes
$5$rounds=5000$toolongsaltstrin$Un/5jzAHMgOGZ5.mWJpuVolil07guHPvOW8mGRcvxa5 | This is just a test -> yes
$5$rounds=77777$short$JiO1O3ZpDAxGJeaDIuqCoEFysAe1mZNJRs3pw0KQRd/ | we have a short salt string but not a short password -> yes
$5$rounds=1000$roundstoolow$yfvwcWrQ8l/K0DAWyuPMDNHpIVlTQebY9l/gL972bIC | the minimum number is still observed -> yes
$5$rounds=10$roundstoolow$yfvwcWrQ8l/K0DAWyuPMDNHpIVlTQebY9l/gL972bIC | the minimum number is still observed -> yes
# its vector with a password of 84 bytes, more than are looked at
$5$rounds=1400$anotherlongsalts$Rx.j8H.h8HjEDGomFU8bDkXm3XIUnzyxf12oP84Bnq1 | a very much longer text to encrypt.  This one even stretches over morethan one line. -> no
# passwords and salts of other lengths, by crypt(3)
$5$rounds=1000$s$z5VgeXlzT.M8/EMRKo9XOcikNGiuKT9gSGajArVUrH0 | a -> yes
$5$rounds=1000$sa$Lwfw38yUSNRWL/bAB8DHsqo207miHeN67kyKEiVwj0D | ab -> yes
$5$rounds=1000$saltsaltsaltsal$6uUbZsRTEzNOJOuwpjnon3Dx1uLUpZFohe3LqyI60c9 | abcdefghijklmno -> yes
$5$rounds=1000$saltsaltsaltsalt$tQcVjpDcKzKOqj7g/YOT.E87eeb09sYjl9ZO6pV94HC | abcdefghijklmnop -> yes
$5$rounds=1000$saltsaltsaltsa$rBs7/xDxYvj3ssOJby3rIH/ePG//FJra13b6O52A3T/ | abcdefghijklmnopqrstuvwxyz01234 -> yes
$5$rounds=1000$saltsaltsaltsal$1KOgIjT42tWSRTxpFQiFAbsIxd8mMxc72gCzJx.xlL/ | abcdefghijklmnopqrstuvwxyz012345 -> yes
$5$rounds=1000$saltsaltsaltsalt$pk74VrlspTt9yU9tTSCedVExoGOXOE8Zy7.syf23/hA | abcdefghijklmnopqrstuvwxyz0123456 -> yes
$5$rounds=1000$saltsaltsalt$LD0cfKkfUupSYBr6fFBmzBDGNTS9NygHMElfwetcgg7 | abcdefghijklmnopqrstuvwxyz0123456789abcdefghijklmnopqrstuvwxyz0 -> yes
$5$rounds=1000$saltsaltsalts$qx.X.VHGEofgdCStuFIw/xw7L61zKjYkT95FAXytLE9 | abcdefghijklmnopqrstuvwxyz0123456789abcdefghijklmnopqrstuvwxyz01 -> yes
$5$rounds=1000$saltsaltsaltsa$V7iaZPknUJDBDUaZsQAoQZIpjH8D8fV1W2nzROh1F29 | abcdefghijklmnopqrstuvwxyz0123456789abcdefghijklmnopqrstuvwxyz012 -> yes
$5$rounds=1000$sal$ats12/0h.a1QbrNy7Vog2ezDrrJumwq4WmumiZ/4uuC | abcdefghijklmnopqrstuvwxyz0123456789abcdefghijklmnopqrstuvwxyz012345678 -> yes
$5$rounds=1000$salt$e8cJgOG2BkIJz1RBW/t7X5u8ikq6RJb8IlHCy/02gB7 | abcdefghijklmnopqrstuvwxyz0123456789abcdefghijklmnopqrstuvwxyz0123456789 -> yes
$5$rounds=1000$salts$pUNSQ/UJ0kD9ll.u7eoFn7vV7V.AKSNuozS7dxsV260 | abcdefghijklmnopqrstuvwxyz0123456789abcdefghijklmnopqrstuvwxyz0123456789a -> no
$5$rounds=1000$empty$FXha5uPEquvEe/9u4fbnefx.bVTs6qjD6G8cTcCjKH/ |  -> yes
$5$rounds=1000$utf8$mBziV0Goi56tSPuFYnjQfbIpZG11LQ8PSFSpkMKnSRD | pässwörd -> yes
# other passwords
$5$rounds=1000$salt$CCvcOM6b7TEJDPb37Aec/9UpOg4QhPNAxPpL9ZzjTB7 | secret -> yes
$5$rounds=1000$salt$CCvcOM6b7TEJDPb37Aec/9UpOg4QhPNAxPpL9ZzjTB7 | secre -> no
$5$rounds=1000$salt$CCvcOM6b7TEJDPb37Aec/9UpOg4QhPNAxPpL9ZzjTB7 | Secret -> no
$5$rounds=1000$salt$CCvcOM6b7TEJDPb37Aec/9UpOg4QhPNAxPpL9ZzjTB7 | secrets -> no
$5$rounds=1000$salt$CCvcOM6b7TEJDPb37Aec/9UpOg4QhPNAxPpL9ZzjTB7 |  secret -> no
$5$rounds=1000$salt$CCvcOM6b7TEJDPb37Aec/9UpOg4QhPNAxPpL9ZzjTB7 | secret  -> no
$5$rounds=1000$salt$CCvcOM6b7TEJDPb37Aec/9UpOg4QhPNAxPpL9ZzjTB7 |  -> no
# another salt, other rounds, another digest, and no secrets
$5$rounds=1000$sall$CCvcOM6b7TEJDPb37Aec/9UpOg4QhPNAxPpL9ZzjTB7 | secret -> no
$5$rounds=1001$salt$CCvcOM6b7TEJDPb37Aec/9UpOg4QhPNAxPpL9ZzjTB7 | secret -> no
$5$salt$CCvcOM6b7TEJDPb37Aec/9UpOg4QhPNAxPpL9ZzjTB7 | secret -> no
$5$rounds=999$salt$CCvcOM6b7TEJDPb37Aec/9UpOg4QhPNAxPpL9ZzjTB7 | secret -> yes
$5$rounds=+1000$salt$CCvcOM6b7TEJDPb37Aec/9UpOg4QhPNAxPpL9ZzjTB7 | secret -> yes
$5$rounds=01000$salt$CCvcOM6b7TEJDPb37Aec/9UpOg4QhPNAxPpL9ZzjTB7 | secret -> yes
$5$rounds=$salt$CCvcOM6b7TEJDPb37Aec/9UpOg4QhPNAxPpL9ZzjTB7 | secret -> no
$5$rounds=1000 $salt$CCvcOM6b7TEJDPb37Aec/9UpOg4QhPNAxPpL9ZzjTB7 | secret -> no
$5$Rounds=1000$salt$CCvcOM6b7TEJDPb37Aec/9UpOg4QhPNAxPpL9ZzjTB7 | secret -> no
$5$rounds=1000$salt$CCvcOM6b7TEJDPb37Aec/9UpOg4QhPNAxPpL9ZzjTB | secret -> no
$5$rounds=1000$salt$CCvcOM6b7TEJDPb37Aec/9UpOg4QhPNAxPpL9ZzjTB. | secret -> no
$5$rounds=1000$salt$CCvcOM6b7TEJDPb37Aec/9UpOg4QhPNAxPpL9ZzjTB7. | secret -> no
$6$rounds=1000$salt$CCvcOM6b7TEJDPb37Aec/9UpOg4QhPNAxPpL9ZzjTB7 | secret -> no
5$rounds=1000$salt$CCvcOM6b7TEJDPb37Aec/9UpOg4QhPNAxPpL9ZzjTB7 | secret -> no
secret | secret -> no
";

#[test]
fn passwords_have_their_secrets(rt: HostRuntime) -> Result<(), Fail> {
    for row in ROWS.lines() {
        if let Some((input, wanted)) = parts(row) {
            let (secret, password) = input.split_once(" | ").ok_or("a row without a password")?;
            let found = if matches_secret(password.as_bytes(), secret) {
                "yes"
            } else {
                "no"
            };
            assert!(&rt; found == wanted, "{row}\ngives: {found}");
        }
    }
    Ok(())
}
